// A block: columns, then rows, then the 5793 / 4096 rule where the logarithms of the sides add to an odd number.
#![tactic(auto)]

mod shape;

ghost use Rattle.std.specs.Prelude.{◌≡◌, length, IfOk};
ghost use Rattle.answer.specs.Answer.{told};
ghost use Rattle.kernels.specs.Kind.{kind_number};
ghost use Rattle.block.specs.Admitted.{admitted};
ghost use Rattle.block.specs.Call.{block_answer, scratch_after, output_after};

use answer::{Outcome, Refusal};
pub use shape::{Shape, kinds};
use sizes::Size;

// A block by its arguments alone, or why it is refused: scratch and output are the lengths of those buffers. Kinds are numbers in public calls, which
// refuse any other by 2.
#[tactic(auto, unfolding(crate::specs::Call::block_answer, crate::specs::Call::refusals, answer::specs::Answer::lowest), using(residual::proofs::Residual::slice_ok))]
pub fn admit(
    w: usize,
    h: usize,
    column_kind: u32,
    row_kind: u32,
    residuals: &[i32],
    scratch: usize,
    output: usize,
) -> Result<Shape, Refusal>
    ensures answer { admitted result ≡ block_answer w h column_kind row_kind residuals.now scratch output }
    ensures as_asked { IfOk result (λ s. (s.size.w ≡ w) × (s.size.h ≡ h) × (kind_number s.columns ≡ column_kind) × (kind_number s.rows ≡ row_kind)) }
{
    let size = Size::new(w, h)?;
    let shape = Shape::new(size, column_kind, row_kind)?;
    let places = size.places();
    if (residuals.len() < places) | ((scratch < places) | (output < places)) {
        return Err(Refusal::ShortBuffer);
    }
    if !residual::residuals_ok(&residuals[..places]) {
        return Err(Refusal::ResidualRange);
    }
    Ok(shape)
}

// The first w × h residuals, a block, into the first w × h numbers of output; those of scratch hold the columns' pass.
pub fn block(
    w: usize,
    h: usize,
    column_kind: u32,
    row_kind: u32,
    residuals: &[i32],
    scratch: &mut [i32],
    output: &mut [i32],
) -> Outcome
    ensures result_value { told result ≡ block_answer w h column_kind row_kind residuals.now (length scratch.old) (length output.old) }
    ensures scratch_after { scratch.new ≡ scratch_after w h column_kind row_kind residuals.now scratch.old (length output.old) }
    ensures output_after { output.new ≡ output_after w h column_kind row_kind residuals.now (length scratch.old) output.old }
{
    let shape = admit(
        w,
        h,
        column_kind,
        row_kind,
        residuals,
        scratch.len(),
        output.len(),
    )?;
    shape.column_lines(0, w, residuals, scratch);
    shape.row_lines(0, h, scratch, output);
    Ok(shape.size.places())
}
