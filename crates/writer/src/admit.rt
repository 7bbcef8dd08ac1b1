// The tests of a list of blocks in lent buffers, before anything is written.
ghost use Rattle.std.specs.Prelude.{◌≡◌, true, not, ◌||◌, ◌*◌, ◌^◌, ◌≤◌, ◌<◌, min, ltb, length, get_or, MatchResult};
ghost use Rattle.laws.specs.Table.{every};
ghost use Rattle.answer.specs.Answer.{answers, refuses, number_of, lowest};
ghost use Rattle.sizes.specs.Size.{is_side};
ghost use Rattle.format.specs.Pieces.{listed};
ghost use Rattle.writer.specs.Write.{level_at, place_at, length_to, is_rising, by_buffers};

use answer::Refusal;

// The largest level.
const LARGEST: u32 = 1 << 30;

// How many of the sides of count blocks are lent.
fn lent_sides(count: usize, lent: usize) -> usize
    ensures { result ≡ min (2 * count) lent }
{
    count.saturating_mul(2).min(lent)
}

// Whether each side is a side.
fn are_sides(sides: &[usize]) -> bool
    ensures { result ≡ every (length sides.now) (λ i. is_side (get_or sides.now i 0)) }
{
    let mut ok = true;
    for side in sides {
        ok &= sizes::is_side(*side);
    }
    ok
}

// How many bytes are listed for some levels.
pub(crate) fn listed_length(levels: &[i32]) -> usize
    requires { length levels.now ≤ 1024 }
    ensures { result ≡ length (listed (length levels.now) (level_at levels.now)) }
{
    let mut count: u32 = 0;
    for level in levels {
        count += u32::from(*level != 0);
    }
    4 * (count as usize)
}

// Whether the levels are there and the bytes have room.
fn fits(count: usize, sides: &[usize], levels: &[i32], room: usize) -> bool
    requires { (2 * count ≤ length sides.now) × (every (2 * count) (λ i. is_side (get_or sides.now i 0)) ≡ true) }
    ensures { result ≡ not (ltb (length levels.now) (place_at sides.now count) || ltb room (length_to sides.now levels.now count)) }
{
    let mut place = 0;
    let mut bytes = 0;
    for k in 0..count {
        let n = sides[2 * k] * sides[2 * k + 1];
        if levels.len() - place < n {
            return false;
        }
        let more = 5 + n / 8 + listed_length(&levels[place..place + n]);
        if room - bytes < more {
            return false;
        }
        place += n;
        bytes += more;
    }
    true
}

// The places of count blocks, of which the levels are lent.
fn places_of(count: usize, sides: &[usize]) -> usize
    requires { (2 * count ≤ length sides.now) × (place_at sides.now count < 2 ^ 64) }
    ensures { result ≡ place_at sides.now count }
{
    let mut place = 0;
    for k in 0..count {
        place += sides[2 * k] * sides[2 * k + 1];
    }
    place
}

// Whether the numbers rise.
fn is_rising(numbers: &[u32]) -> bool
    ensures { result ≡ is_rising (length numbers.now) numbers.now }
{
    let mut ok = true;
    for k in 1..numbers.len() {
        ok &= numbers[k - 1] < numbers[k];
    }
    ok
}

// Whether the blocks can be written in so many bytes, or why not.
pub(crate) fn admit(
    count: usize,
    numbers: &[u32],
    sides: &[usize],
    levels: &[i32],
    room: usize,
) -> Result<(), Refusal>
    ensures { MatchResult result (λ _. answers 0 ≡ lowest (by_buffers count numbers.now sides.now levels.now room) 0) (λ why. refuses (number_of why) ≡ lowest (by_buffers count numbers.now sides.now levels.now room) 0) }
{
    if !are_sides(&sides[..lent_sides(count, sides.len())]) {
        return Err(Refusal::BadSize);
    }
    if (numbers.len() < count) | (sides.len() / 2 < count) {
        return Err(Refusal::ShortBuffer);
    }
    if !fits(count, sides, levels, room) {
        return Err(Refusal::ShortBuffer);
    }
    if !fixed::all_within(LARGEST, &levels[..places_of(count, sides)]) {
        return Err(Refusal::BadRecord);
    }
    if !is_rising(&numbers[..count]) {
        return Err(Refusal::RecordOrder);
    }
    Ok(())
}
