// The C interface: numbers, slices (a pointer, then a length), and a lent ticket or plane record. An answer is a signed 64-bit number: 0 or more for
// an answer, minus document 01's number for a refusal. include/mizdrek.h declares these functions.
#![tactic(auto)]

mod disk;
mod frame;
mod levels;
mod preview;
mod ticket;

ghost use Rattle.std.specs.Prelude.{◌≡◌, length};
ghost use Rattle.answer.specs.Answer.{signed_of};
ghost use Rattle.sizes.specs.Size.{dc_tx_scale};
ghost use Rattle.passes.specs.Call.{pass_answer, pass_after};
ghost use Rattle.block.specs.Call.{block_answer, scratch_after, output_after};
ghost use Rattle.wht.specs.Wht.{wht_answer, wht_after};

#[unsafe(no_mangle)]
pub extern "C" fn mizdrek_dc_tx_scale(w: usize, h: usize) -> i64
    ensures { result ≡ signed_of (dc_tx_scale w h) }
{
    answer::signed(sizes::dc_tx_scale(w, h))
}

#[unsafe(no_mangle)]
pub extern "C" fn mizdrek_pass(
    side: usize,
    kind: u32,
    shift: i32,
    lines: usize,
    src: &[i32],
    dst: &mut [i32],
) -> i64
    ensures value { result ≡ signed_of (pass_answer side kind shift lines (length src.now) (length dst.old)) }
    ensures dst_after { dst.new ≡ pass_after side kind shift lines src.now dst.old }
{
    answer::signed(passes::pass(side, kind, shift, lines, src, dst))
}

#[unsafe(no_mangle)]
pub extern "C" fn mizdrek_block(
    w: usize,
    h: usize,
    column_kind: u32,
    row_kind: u32,
    residuals: &[i32],
    scratch: &mut [i32],
    output: &mut [i32],
) -> i64
    ensures value { result ≡ signed_of (block_answer w h column_kind row_kind residuals.now (length scratch.old) (length output.old)) }
    ensures scratch_after { scratch.new ≡ scratch_after w h column_kind row_kind residuals.now scratch.old (length output.old) }
    ensures output_after { output.new ≡ output_after w h column_kind row_kind residuals.now (length scratch.old) output.old }
{
    answer::signed(block::block(w, h, column_kind, row_kind, residuals, scratch, output))
}

#[unsafe(no_mangle)]
pub extern "C" fn mizdrek_fwht4x4(residuals: &[i32], output: &mut [i32]) -> i64
    ensures value { result ≡ signed_of (wht_answer residuals.now (length output.old)) }
    ensures output_after { output.new ≡ wht_after residuals.now output.old }
{
    answer::signed(wht::fwht4x4(residuals, output))
}
