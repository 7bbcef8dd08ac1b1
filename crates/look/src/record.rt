// One record, looked through without unpacking it. s is the bytes from its first on.
ghost use Rattle.std.specs.Prelude.{◌≡◌, ◌+◌, ◌/◌, ◌%◌, ◌≤◌, length, MatchResult};
ghost use Rattle.answer.specs.Answer.{answers, refuses, number_of};
ghost use Rattle.answer.specs.declared.Refusal.TheVariants.{CutRecord};
ghost use Rattle.format.specs.Pieces.{number_at, width_of, height_of};
ghost use Rattle.format.specs.Format.{width_in, height_in, places_in, count_in, length_in, record_answer};
ghost use Rattle.look.specs.Look.{are_right, listed_count, listed_sum, unless_cut};

use super::levels::Levels;
use super::{bytes, levels};
use answer::Refusal;
use sizes::Size;

// The sides that the lower four bits of a side byte tell.
pub fn size_of(side: u8) -> Size
    ensures { (result.w ≡ width_of side) × (result.h ≡ height_of side) }
{
    Size {
        w: 4 << (side % 4),
        h: 4 << (side / 4 % 4),
    }
}

// The bytes from the first of a record on, of which it lacks none.
#[derive(Clone, Copy)]
pub struct Whole<'a> {
    pub bytes: &'a [u8],
    ghost whole: { length_in bytes.now ≤ length bytes.now },
}

impl<'a> Whole<'a> {
    #[tactic(auto, using(crate::proofs::Looked::whole_some))]
    pub fn number(&self) -> u32
        ensures { result ≡ number_at self.now.bytes.now 0 }
    {
        bytes::number_at(self.bytes, 0)
    }

    #[tactic(auto, using(crate::proofs::Looked::whole_some), unfolding(format::specs::Format::width_in, format::specs::Format::height_in))]
    pub fn size(&self) -> Size
        ensures { (result.w ≡ width_in self.now.bytes.now) × (result.h ≡ height_in self.now.bytes.now) }
    {
        size_of(self.bytes[4])
    }

    pub fn places(&self) -> usize
        ensures { result ≡ places_in self.now.bytes.now }
    {
        self.size().places()
    }

    // How many levels are listed.
    pub fn count(&self) -> usize
        ensures { result ≡ listed_count self.now.bytes.now }
    {
        count_in(self.bytes, self.places())
    }

    // What they come to.
    #[tactic(auto, using(crate::proofs::Looked::sum_is))]
    pub fn levels(&self) -> Levels
        ensures { (result.right ≡ are_right self.now.bytes.now (listed_count self.now.bytes.now)) × (result.magnitude ≡ listed_sum self.now.bytes.now) }
    {
        levels::sum_levels(self.bytes, 5 + self.places() / 8, self.count())
    }
}

// How many levels are listed for n places, by the bytes of the map.
fn count_in(s: &[u8], n: usize) -> usize
    requires { (n ≤ 1024) × (n % 8 ≡ 0) × (5 + n / 8 ≤ length s.now) }
    ensures { result ≡ count_in s.now n }
{
    let mut count: u32 = 0;
    for j in 0..n / 8 {
        count += s[5 + j].count_ones();
    }
    count as usize
}

// How many levels a record lists, unless the bytes end inside it.
fn count_listed(s: &[u8]) -> Result<usize, Refusal>
    ensures { MatchResult result (λ count. (length_in s.now ≤ length s.now) × (count ≡ listed_count s.now)) (λ why. (why ≡ CutRecord) × (length s.now + 1 ≤ length_in s.now)) }
{
    if s.len() < 5 {
        return Err(Refusal::CutRecord);
    }
    let n = size_of(s[4]).places();
    let list = 5 + n / 8;
    if s.len() < list {
        return Err(Refusal::CutRecord);
    }
    let count = count_in(s, n);
    if s.len() < list + 4 * count {
        return Err(Refusal::CutRecord);
    }
    Ok(count)
}

// A right record: its block's number and places, its length, how many levels it lists, and the sum of their magnitudes.
#[derive(Clone, Copy)]
pub struct Record {
    pub number: u32,
    pub places: usize,
    pub length: usize,
    pub levels: usize,
    pub magnitude: u64,
}

// Why a record is refused, and what is counted in it all the same: how many levels it lists, and the sum of their magnitudes. Where the bytes end
// inside it, it counts as one without levels.
#[derive(Clone, Copy)]
pub struct Damaged {
    pub why: Refusal,
    pub levels: usize,
    pub magnitude: u64,
}

impl Damaged {
    #[inline(always)]
    fn new(why: Refusal, levels: usize, magnitude: u64) -> Damaged
        ensures { (result.why ≡ why) × (result.levels ≡ levels) × (result.magnitude ≡ magnitude) }
    {
        Damaged {
            why,
            levels,
            magnitude,
        }
    }
}

impl From<Damaged> for Refusal {
    ghost from_gives = { λ d why. why ≡ d.why };

    fn from(damaged: Damaged) -> Refusal {
        damaged.why
    }
}

// A record, if it is whole and right, and its number low or more; else why not, and what is counted in it.
#[tactic(auto, using(crate::proofs::Looked::says_cut, crate::proofs::Looked::whole_some, crate::proofs::Looked::says_side, crate::proofs::Looked::says_levels, crate::proofs::Looked::says_order, crate::proofs::Looked::says_right, crate::proofs::Looked::sum_is, crate::proofs::Looked::cut_none, crate::proofs::Looked::whole_all))]
pub fn judge_record(low: u64, s: &[u8]) -> Result<Record, Damaged>
    ensures { MatchResult result (λ r. (answers r.length ≡ record_answer low s.now) × (r.number ≡ number_at s.now 0) × (r.places ≡ places_in s.now) × (r.levels ≡ listed_count s.now) × (r.magnitude ≡ listed_sum s.now)) (λ d. (refuses (number_of d.why) ≡ record_answer low s.now) × (d.levels ≡ unless_cut s.now (listed_count s.now)) × (d.magnitude ≡ unless_cut s.now (listed_sum s.now))) }
{
    let count = match count_listed(s) {
        Ok(count) => count,
        Err(why) => return Err(Damaged::new(why, 0, 0)),
    };
    let record = Whole { bytes: s };
    let places = record.places();
    let list = 5 + places / 8;
    let sum = levels::sum_levels(s, list, count);
    if s[4] >= 16 {
        return Err(Damaged::new(Refusal::BadRecord, count, sum.magnitude));
    }
    if !sum.right {
        return Err(Damaged::new(Refusal::BadRecord, count, sum.magnitude));
    }
    let number = record.number();
    if u64::from(number) < low {
        return Err(Damaged::new(Refusal::RecordOrder, count, sum.magnitude));
    }
    Ok(Record {
        number,
        places,
        length: list + 4 * count,
        levels: count,
        magnitude: sum.magnitude,
    })
}

// The same, with the refusal alone.
pub fn check_record(low: u64, s: &[u8]) -> Result<Record, Refusal>
    ensures { MatchResult result (λ r. (answers r.length ≡ record_answer low s.now) × (r.number ≡ number_at s.now 0) × (r.places ≡ places_in s.now) × (r.levels ≡ listed_count s.now) × (r.magnitude ≡ listed_sum s.now)) (λ why. refuses (number_of why) ≡ record_answer low s.now) }
{
    Ok(judge_record(low, s)?)
}

#[cfg(test)]
mod tests {
    use super::check_record;

    // Block 7, of 4×4, whose third level is -5; two bytes more, which aren't the record's.
    const BYTES: [u8; 13] = [7, 0, 0, 0, 0, 4, 0, 251, 255, 255, 255, 9, 9];

    // The same with a bit above the lower four of its side byte.
    const UPPER: [u8; 11] = [7, 0, 0, 0, 16, 4, 0, 251, 255, 255, 255];

    // Number, places, length, levels and sum of magnitudes, or the number of the refusal.
    fn told(low: u64, s: &[u8]) -> Result<(u32, usize, usize, usize, u64), u32> {
        let r = check_record(low, s)?;
        Ok((r.number, r.places, r.length, r.levels, r.magnitude))
    }

    #[test]
    fn checks_a_record(rt: HostRuntime) {
        assert_eq!(rt; told(7, &BYTES), Ok((7, 16, 11, 1, 5)));
        assert_eq!(rt; told(7, &BYTES[..10]), Err(10));
        assert_eq!(rt; told(7, &UPPER), Err(11));
        assert_eq!(rt; told(8, &BYTES), Err(12));
    }
}
