// Whole numbers by their sign and size.
ghost use Rattle.std.specs.Prelude.{◌≡◌, false, cond, ◌<◌, ◌^◌, pos, neg_ℤ, IfSome};

// A whole number of at most 18 digits, by its sign and size; zeros in front don't count.
#[derive(Clone, Copy)]
pub struct Number {
    pub minus: bool,
    pub size: u64,
    ghost small: { size < 10 ^ 18 },
}

// A run of digits, one or more.
fn parse_size(digits: &[u8]) -> Option<u64>
    ensures { IfSome result (λ n. n < 10 ^ 18) }
{
    if digits.is_empty() {
        return None;
    }
    let mut size: u64 = 0;
    for b in digits {
        if !b.is_ascii_digit() {
            return None;
        }
        if size >= 100000000000000000 {
            return None;
        }
        size = 10 * size + u64::from(*b - b'0');
    }
    Some(size)
}

impl Number {
    pub const ZERO: Number = Number {
        minus: false,
        size: 0,
    };

    // A word that is a number: a minus or none, and digits.
    pub fn parse(word: &[u8]) -> Option<Number>
        ensures { IfSome result (λ n. n.size < 10 ^ 18) }
    {
        let (minus, digits) = match word {
            [b'-', digits @ ..] => (true, digits),
            _ => (false, word),
        };
        let size = parse_size(digits)?;
        Some(Number { minus, size })
    }

    // As a number from 0 to 4294967295, written with no minus.
    pub fn unsigned(self) -> Option<u32>
        ensures { IfSome result (λ n. (n ≡ self.size) × (self.minus ≡ false)) }
    {
        if self.minus {
            return None;
        }
        u32::try_from(self.size).ok()
    }

    // As a number from -2147483647 to 2147483647.
    pub fn signed(self) -> Option<i32>
        ensures { IfSome result (λ n. n ≡ cond self.minus (neg_ℤ (pos self.size)) (pos self.size)) }
    {
        let size = i32::try_from(self.size).ok()?;
        Some(if self.minus { -size } else { size })
    }
}

impl From<Number> for i64 {
    ghost from_gives = { λ n z. z ≡ cond n.minus (neg_ℤ (pos n.size)) (pos n.size) };

    fn from(n: Number) -> i64 {
        let size = n.size as i64;
        if n.minus { -size } else { size }
    }
}
