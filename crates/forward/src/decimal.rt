// Decimal numbers, such as 1, 0.5 or 0.375.
ghost use Rattle.std.specs.Prelude.{◌^◌, ◌<◌, IfSome};

// Digits behind the digits of before, one or more: all of them as one number below 2^24.
fn parse_digits(digits: &[u8], before: u32) -> Option<u32>
    requires { before < 2 ^ 24 }
    ensures { IfSome result (λ n. n < 2 ^ 24) }
{
    if digits.is_empty() {
        return None;
    }
    let mut value = before;
    for b in digits {
        if !b.is_ascii_digit() {
            return None;
        }
        let more = 10 * value + u32::from(*b - b'0');
        if more >= 16777216 {
            return None;
        }
        value = more;
    }
    Some(value)
}

// The powers of ten that an f32 holds exactly.
const TENS: [f32; 11] = [
    1.0,
    10.0,
    100.0,
    1000.0,
    10000.0,
    100000.0,
    1000000.0,
    10000000.0,
    100000000.0,
    1000000000.0,
    10000000000.0,
];

// A word that is a decimal number, with at most 10 digits behind its point. Its digits and the power of ten are exact, so that the division, which
// rounds once, gives the nearest f32.
pub fn parse(word: &[u8]) -> Option<f32> {
    let Some(point) = word.iter().position(|b| *b == b'.') else {
        return Some(std::num::nearest_u32_to_f32(parse_digits(word, 0)?));
    };
    let fraction = &word[point + 1..];
    let whole = parse_digits(&word[..point], 0)?;
    let value = parse_digits(fraction, whole)?;
    let power = TENS.get(fraction.len())?;
    Some(std::num::nearest_u32_to_f32(value) / *power)
}
