// The totals of a record file: its blocks, its nonzero levels, and the sum of their magnitudes. Nothing is unpacked.
#![tactic(auto)]

ghost use Rattle.std.specs.Prelude.{◌≡◌};
ghost use Rattle.totals.specs.Totals.{reported, report_of};

use answer::Refusal;

// A longer file is refused, since its sum of magnitudes may pass 64 bits.
const LONGEST: usize = 0xF_FFFF_FFFF;

// What a file that is right holds.
#[derive(Clone, Copy)]
pub struct Totals {
    pub blocks: usize,
    pub levels: u64,
    pub magnitude: u64,
}

// The totals of a record file, or why it is refused.
pub fn add_up(bytes: &[u8]) -> Result<Totals, Refusal>
    ensures { reported result ≡ report_of bytes.now }
{
    if bytes.len() > LONGEST {
        return Err(Refusal::BadFile);
    }
    let mut totals = Totals {
        blocks: 0,
        levels: 0,
        magnitude: 0,
    };
    let mut low: u64 = 0;
    let mut at = 0;
    // An iterator over the records took 1.44 of the time.
    while at < bytes.len() {
        let record = look::judge_record(low, &bytes[at..])?;
        totals.blocks += 1;
        totals.levels += record.levels as u64;
        totals.magnitude += record.magnitude;
        low = u64::from(record.number) + 1;
        at += record.length;
    }
    Ok(totals)
}
