// The levels that a record lists, judged and added up. s is the bytes from its first on.
ghost use Rattle.std.specs.Prelude.{◌≡◌, ◌+◌, ◌*◌, ◌≤◌, length, unsigned_abs};
ghost use Rattle.laws.specs.Sum.{sum_ℕ};
ghost use Rattle.format.specs.Format.{list_in, listed_in};
ghost use Rattle.look.specs.Look.{are_right};

use super::bytes;

// What levels come to: whether each is nonzero and within 2^30 of zero, and the sum of their magnitudes, which stands in either case.
#[derive(Clone, Copy)]
pub struct Levels {
    pub right: bool,
    pub magnitude: u64,
}

// The count levels that are listed. Their sum is made of two, of the magnitudes' lower and upper halves, and reach has a bit from 30 on once a
// level isn't right: all are numbers of 32 bits, so that the loop works on several levels at a time.
pub fn sum_levels(s: &[u8], list: usize, count: usize) -> Levels
    requires { (list ≡ list_in s.now) × (list + 4 * count ≤ length s.now) × (count ≤ 1024) }
    ensures { (result.right ≡ are_right s.now count) × (result.magnitude ≡ sum_ℕ count (λ i. unsigned_abs (listed_in s.now i))) }
{
    let mut lower: u32 = 0;
    let mut upper: u32 = 0;
    let mut reach: u32 = 0;
    for i in 0..count {
        let level = bytes::of_word(bytes::number_at(s, list + 4 * i));
        let magnitude = level.unsigned_abs();
        reach |= magnitude.wrapping_sub(1);
        lower += magnitude % 65536;
        upper += magnitude / 65536;
    }
    Levels {
        right: reach < 0x4000_0000,
        magnitude: 65536 * u64::from(upper) + u64::from(lower),
    }
}
