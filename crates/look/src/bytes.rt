// Numbers in four bytes, low byte first.
ghost use Rattle.std.specs.Prelude.{◌≡◌, ◌+◌, ◌≤◌, length};
ghost use Rattle.format.specs.Pieces.{number_at, of_word};

// The number of the four bytes at a place.
#[tactic(auto, unfolding(format::specs::Pieces::number_at))]
pub fn number_at(s: &[u8], at: usize) -> u32
    requires { at + 4 ≤ length s.now }
    ensures { result ≡ number_at s.now at }
{
    u32::from_le_bytes([s[at], s[at + 1], s[at + 2], s[at + 3]])
}

// The level that has the bits of n.
pub fn of_word(n: u32) -> i32
    ensures { result ≡ of_word n }
{
    n.cast_signed()
}
