// A pass as a call.
#![tactic(auto)]

mod fold;
mod rows;

ghost use Rattle.std.specs.Prelude.{◌≡◌, true, pos, length, IfOk};
ghost use Rattle.answer.specs.Answer.{told};
ghost use Rattle.sizes.specs.Size.{is_side};
ghost use Rattle.kernels.specs.Kernel.{has_kernel};
ghost use Rattle.kernels.specs.Kind.{kind_number};
ghost use Rattle.lines.specs.Pass.{pass_lines};
ghost use Rattle.lines.specs.Room.{PassRoom};
ghost use Rattle.passes.specs.Call.{pass_answer, pass_after};
ghost use Rattle.passes.specs.Admitted.{admitted};

use answer::{Outcome, Refusal};
use fixed::Shift;
use kernels::Kind;
use lines::Source;
use sizes::Size;

// A pass that may run: as many numbers a line as w and as many lines as h, its kind and its shift.
#[derive(Clone, Copy)]
pub struct ValidPass {
    pub size: Size,
    pub kind: Kind,
    pub shift: Shift,
}

// A pass by its arguments alone, or why it is refused: src and dst are the lengths of those buffers. Kinds are numbers in public calls, which refuse any
// other by 2.
#[tactic(auto, unfolding(crate::specs::Call::pass_answer, answer::specs::Answer::lowest))]
pub fn admit(
    side: usize,
    kind: u32,
    shift: i32,
    lines: usize,
    src: usize,
    dst: usize,
) -> Result<ValidPass, Refusal>
    ensures answer { admitted result ≡ pass_answer side kind shift lines src dst }
    ensures as_asked { IfOk result (λ p. (p.size.w ≡ side) × (p.size.h ≡ lines) × (kind_number p.kind ≡ kind) × (pos p.shift.bits ≡ shift)) }
{
    let size = Size::new(side, lines)?;
    let shift = Shift::new(shift)?;
    let kind = Kind::new(kind, side)?;
    if (src < size.places()) | (dst < size.places()) {
        return Err(Refusal::ShortBuffer);
    }
    Ok(ValidPass { size, kind, shift })
}

// One pass: this many lines of side numbers each, input src[k × lines + j], output dst[j × side + f]. At shift 0 it writes the raw kernel sums.
pub fn pass(
    side: usize,
    kind: u32,
    shift: i32,
    lines: usize,
    src: &[i32],
    dst: &mut [i32],
) -> Outcome
    ensures result_value { told result ≡ pass_answer side kind shift lines (length src.now) (length dst.old) }
    ensures dst_after { dst.new ≡ pass_after side kind shift lines src.now dst.old }
{
    let pass = admit(side, kind, shift, lines, src.len(), dst.len())?;
    let source = Source {
        numbers: src,
        lines,
        shift: pass.shift,
    };
    run(side, pass.kind, &source, dst);
    Ok(pass.size.places())
}

// Every line of a pass. An ADST has no fold: its sums are dense, as the lanes make them.
fn run(side: usize, kind: Kind, source: &Source<'_>, dst: &mut [i32])
    requires { (is_side side ≡ true) × (is_side source.now.lines ≡ true) × (has_kernel (kind_number kind) side ≡ true) × PassRoom side source.now.lines 0 source.now.lines (length source.now.numbers.now) (length dst.old) }
    ensures { dst.new ≡ pass_lines (kind_number kind) side source.now.shift.bits source.now.lines source.now.numbers.now 0 source.now.lines dst.old }
{
    match kind {
        Kind::Dct => fold::dct(side, source, dst),
        Kind::Adst => lanes::run(side, kind, source, 0, source.lines, dst),
    }
}
