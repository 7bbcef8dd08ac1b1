// The lighter of two trials: of two lent buffers of levels, the first levels of the one with the smaller sum of magnitudes.
#![tactic(auto)]

ghost use Rattle.std.specs.Prelude.{◌≡◌, true, false, ◌≤◌, length, MatchResult};
ghost use Rattle.answer.specs.Answer.{told};
ghost use Rattle.answer.specs.declared.Refusal.TheVariants.{BadRecord};
ghost use Rattle.choice.specs.Choice.{weight, choice_answer, number_in, part_at, lighter_of};
ghost use Rattle.format.specs.Pieces.{are_near};

use answer::{Outcome, Refusal};

// The sum of the levels' magnitudes, each of which is to be within 2^30 of zero: number 11's rule. The sum is made of two, of the magnitudes' lower
// and upper halves, and reach has bit 31 once a level isn't near: all are numbers of 32 bits, so that the loop works on several levels at a time.
fn weigh(levels: &[i32]) -> Result<u64, Refusal>
    requires { length levels.now ≤ 1024 }
    ensures { MatchResult result (λ sum. (are_near (length levels.now) levels.now ≡ true) × (sum ≡ weight (length levels.now) levels.now)) (λ why. (why ≡ BadRecord) × (are_near (length levels.now) levels.now ≡ false)) }
{
    let mut lower: u32 = 0;
    let mut upper: u32 = 0;
    let mut reach: u32 = 0;
    for level in levels {
        let magnitude = level.unsigned_abs();
        reach = (magnitude + 0x3FFF_FFFF) | reach;
        lower += magnitude % 65536;
        upper += magnitude / 65536;
    }
    if reach >= 0x8000_0000 {
        return Err(Refusal::BadRecord);
    }
    Ok(65536 * u64::from(upper) + u64::from(lower))
}

// Which of two buffers is the lighter by its first count levels: 0 the first, as on a tie, or 1 the second.
#[tactic(auto, using(crate::proofs::Accepted::far_first, crate::proofs::Accepted::far_second, crate::proofs::Accepted::second_lighter, crate::proofs::Accepted::first_lighter), unfolding(crate::specs::Choice::choice_answer, answer::specs::Answer::lowest))]
pub fn which(first: &[i32], second: &[i32], count: usize) -> Outcome
    ensures { told result ≡ choice_answer first.now second.now count }
{
    if count > 1024 {
        return Err(Refusal::ScanRange);
    }
    if (first.len() < count) | (second.len() < count) {
        return Err(Refusal::ShortBuffer);
    }
    let a = weigh(&first[..count])?;
    let b = weigh(&second[..count])?;
    if b < a {
        return Ok(1);
    }
    Ok(0)
}

// The number that a choice is refused by, or 0.
pub fn refused_by(first: &[i32], second: &[i32], count: usize) -> u32
    ensures { result ≡ number_in (choice_answer first.now second.now count) }
{
    match which(first, second, count) {
        Ok(_) => 0,
        Err(why) => u32::from(why),
    }
}

// The first count levels of the lighter buffer, as a part of it. Refused, it is the empty part at the first one's start.
pub fn lighter<'a>(first: &'a [i32], second: &'a [i32], count: usize) -> &'a [i32]
    ensures { part_at result ≡ lighter_of first.entry second.entry count }
{
    match which(first, second, count) {
        Err(_) => &first[..0],
        Ok(0) => &first[..count],
        Ok(_) => &second[..count],
    }
}
