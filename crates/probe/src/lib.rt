// What the comparison with the Rust looks at and the C interface leaves out: the kernel tables, the shifts and the lane passes. All is by numbers, as C
// hands them over.
#![tactic(auto)]

ghost use Rattle.std.specs.Prelude.{◌≡◌, length};
ghost use Rattle.kernels.specs.Dct.{dct32};
ghost use Rattle.kernels.specs.Kernel.{by_sample};
ghost use Rattle.answer.specs.Answer.{signed_of, told};
ghost use Rattle.probe.specs.Lanes.{lanes_answer, lanes_after};
ghost use Rattle.probe.specs.Shifts.{shift_pair};

use answer::{Outcome, Refusal};
use lines::Source;
use sizes::Size;

#[unsafe(no_mangle)]
pub extern "C" fn probe_dct32(table: &mut [i8; 1024])
    ensures { table.new ≡ dct32 }
{
    *table = *kernels::dct32();
}

// The ADST tables are by sample: frequency f, sample k at place k × n + f.
#[unsafe(no_mangle)]
pub extern "C" fn probe_adst16(table: &mut [i8; 256])
    ensures { table.new ≡ by_sample 1 16 }
{
    *table = *kernels::adst16();
}

#[unsafe(no_mangle)]
pub extern "C" fn probe_adst8(table: &mut [i8; 64])
    ensures { table.new ≡ by_sample 1 8 }
{
    *table = *kernels::adst8();
}

#[unsafe(no_mangle)]
pub extern "C" fn probe_adst4(table: &mut [i8; 16])
    ensures { table.new ≡ by_sample 1 4 }
{
    *table = *kernels::adst4();
}

// The first shift times 16 plus the second; 0 for a size that there isn't.
#[unsafe(no_mangle)]
#[tactic(auto, unfolding(crate::specs::Shifts::shift_pair), using(fixed::proofs::Shifted::shift_small))]
pub extern "C" fn probe_shifts(w: usize, h: usize) -> u32
    ensures { result ≡ shift_pair w h }
{
    let Ok(size) = Size::new(w, h) else {
        return 0;
    };
    let shifts = size.shifts();
    shifts.first.bits * 16 + shifts.second.bits
}

// The lane pass: count lines from start on, of a pass of this many lines. It answers the count.
#[unsafe(no_mangle)]
pub extern "C" fn probe_lanes(
    side: usize,
    kind: u32,
    shift: i32,
    lines: usize,
    start: usize,
    count: usize,
    src: &[i32],
    dst: &mut [i32],
) -> i64
    ensures value { result ≡ signed_of (lanes_answer side kind shift lines start count (length src.now) (length dst.old)) }
    ensures dst_after { dst.new ≡ lanes_after side kind shift lines start count src.now dst.old }
{
    answer::signed(run_lanes(side, kind, shift, lines, start, count, src, dst))
}

fn run_lanes(
    side: usize,
    kind: u32,
    shift: i32,
    lines: usize,
    start: usize,
    count: usize,
    src: &[i32],
    dst: &mut [i32],
) -> Outcome
    ensures result_value { told result ≡ lanes_answer side kind shift lines start count (length src.now) (length dst.old) }
    ensures dst_after { dst.new ≡ lanes_after side kind shift lines start count src.now dst.old }
{
    let pass = passes::admit(side, kind, shift, lines, src.len(), dst.len())?;
    if sizes::ends_past(lines, start, count) {
        return Err(Refusal::BatchRange);
    }
    let source = Source {
        numbers: src,
        lines,
        shift: pass.shift,
    };
    lanes::run(side, pass.kind, &source, start, count, dst);
    Ok(count)
}
