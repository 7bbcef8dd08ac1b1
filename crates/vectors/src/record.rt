// A record of the list: its kind and its numbers.
ghost use Rattle.std.specs.Prelude.{◌≤◌, length, IfSome};

use answer::Outcome;
use text::{Number, Words};

// The numbers of a record behind its kind, put at the start of the array: how many.
pub fn read(words: &mut Words<'_>, numbers: &mut [Number]) -> Option<usize>
    ensures { IfSome result (λ count. count ≤ length numbers.old) }
{
    let count = usize::try_from(words.number()?.size).ok()?;
    if count > numbers.len() {
        return None;
    }
    for i in 0..count {
        numbers[i] = words.number()?;
    }
    Some(count)
}

// The number at a place; 0 past the end.
fn number(numbers: &[Number], at: usize) -> Number {
    if at < numbers.len() {
        numbers[at]
    } else {
        Number::ZERO
    }
}

// The number at a place without its sign.
pub fn size(numbers: &[Number], at: usize) -> u64 {
    number(numbers, at).size
}

// A length of at most 1,024.
pub fn count(numbers: &[Number], at: usize) -> usize
    ensures { result ≤ 1024 }
{
    size(numbers, at).min(1024) as usize
}

// A number from 0 to 4294967295.
pub fn unsigned(numbers: &[Number], at: usize) -> u32 {
    u32::try_from(size(numbers, at)).unwrap_or(0)
}

// A number of 32 bits.
pub fn signed(numbers: &[Number], at: usize) -> i32 {
    i32::of(numbers, at)
}

// What a buffer of a call holds.
pub trait Entry: Copy {
    // The entry that a record has at a place.
    fn of(numbers: &[Number], at: usize) -> Self;

    // Whether it is that of the record.
    fn is(self, numbers: &[Number], at: usize) -> bool;
}

impl Entry for i32 {
    fn of(numbers: &[Number], at: usize) -> i32 {
        i32::try_from(i64::from(number(numbers, at))).unwrap_or(0)
    }

    fn is(self, numbers: &[Number], at: usize) -> bool {
        self == signed(numbers, at)
    }
}

impl Entry for u16 {
    fn of(numbers: &[Number], at: usize) -> u16 {
        u16::try_from(size(numbers, at)).unwrap_or(0)
    }

    fn is(self, numbers: &[Number], at: usize) -> bool {
        u64::from(self) == size(numbers, at)
    }
}

// A float stands in the list as its bits.
impl Entry for f32 {
    // 0 where the bits are no number's.
    fn of(numbers: &[Number], at: usize) -> f32 {
        let bits = unsigned(numbers, at);
        if bits % 2147483648 / 8388608 == 255 {
            return 0.0;
        }
        f32::from_bits(bits)
    }

    fn is(self, numbers: &[Number], at: usize) -> bool {
        if self == self {
            return f32::to_bits(self) == unsigned(numbers, at);
        }
        false
    }
}

// The entries from a place on, as many as the buffer takes.
pub fn load<T: Entry>(numbers: &[Number], at: usize, out: &mut [T])
    requires { (at ≤ 4096) × (length out.old ≤ 1024) }
{
    for i in 0..out.len() {
        out[i] = T::of(numbers, at + i);
    }
}

// Whether the first n entries of a buffer are those from a place on.
pub fn is_same<T: Entry>(numbers: &[Number], at: usize, n: usize, got: &[T]) -> bool
    requires { (at ≤ 4096) × (n ≤ 1024) }
{
    if got.len() < n {
        return false;
    }
    for i in 0..n {
        if !got[i].is(numbers, at + i) {
            return false;
        }
    }
    true
}

// Whether an outcome is the one at a place: an answer, or minus the number of a refusal.
pub fn is_answer(numbers: &[Number], at: usize, outcome: Outcome) -> bool {
    let n = number(numbers, at);
    match outcome {
        Ok(k) => !n.minus & (n.size == k as u64),
        Err(why) => n.minus & (n.size == u64::from(u32::from(why))),
    }
}

// How many numbers an expected buffer has: none behind a refusal.
pub fn answered(numbers: &[Number], at: usize) -> usize
    ensures { result ≤ 1024 }
{
    if number(numbers, at).minus {
        0
    } else {
        count(numbers, at)
    }
}
