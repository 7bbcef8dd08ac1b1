// Some lines of a pass from a start: each side compiled by itself, turned when stored. Before the lines, and once for all of them,
// the kernel's numbers are widened and the rounding is built.
#![tactic(auto)]

mod chain;
mod dct;

ghost use Rattle.std.specs.Prelude.{◌≡◌, true, ◌*◌, ◌≤◌, length};
ghost use Rattle.sizes.specs.Size.{is_side};
ghost use Rattle.kernels.specs.Kernel.{by_sample, has_kernel};
ghost use Rattle.kernels.specs.Kind.{kind_number};
ghost use Rattle.lines.specs.Pass.{pass_lines};
ghost use Rattle.lines.specs.Room.{PassRoom};
ghost use Rattle.lines.specs.Table.{square_at};

use chain::{Stages, from_4, from_8, from_16, from_32};
use dct::Dct;
use kernels::Kind;
use lines::{Dense, Setup, Source, run_lines, widen_odd_squares, widen_square};

// Count lines from start on: the numbers of the pass for those lines, and every other number of dst kept. What is asked is handed on to the halves
// below.
pub fn run(
    side: usize,
    kind: Kind,
    source: &Source<'_>,
    start: usize,
    count: usize,
    dst: &mut [i32],
)
    requires { (is_side side ≡ true) × (has_kernel (kind_number kind) side ≡ true) × PassRoom side source.now.lines start count (length source.now.numbers.now) (length dst.old) }
    ensures { dst.new ≡ pass_lines (kind_number kind) side source.now.shift.bits source.now.lines source.now.numbers.now start count dst.old }
{
    match kind {
        Kind::Dct => dct_lines(side, source, start, count, dst),
        Kind::Adst => adst_lines(side, source, start, count, dst),
    }
}

#[tactic(auto, using(lines::proofs::Arm::side_32))]
fn dct_lines(side: usize, source: &Source<'_>, start: usize, count: usize, dst: &mut [i32])
    requires { (is_side side ≡ true) × PassRoom side source.now.lines start count (length source.now.numbers.now) (length dst.old) }
    ensures { dst.new ≡ pass_lines 0 side source.now.shift.bits source.now.lines source.now.numbers.now start count dst.old }
{
    match side {
        4 => dct_side::<4, 5, 16, _>(&from_4(), source, start, count, dst),
        8 => dct_side::<8, 21, 32, _>(&from_8(), source, start, count, dst),
        16 => dct_side::<16, 85, 64, _>(&from_16(), source, start, count, dst),
        _ => dct_side::<32, 341, 128, _>(&from_32(), source, start, count, dst),
    }
}

// The DCT of side N, by the M numbers of its odd squares. L = 4 × N is the room of four lines: those of side 8 go by fours, and so do those of side 16
// where they are too few for the compiler to work them side by side itself.
#[inline(always)]
fn dct_side<const N: usize, const M: usize, const L: usize, S: Stages>(
    stages: &S,
    source: &Source<'_>,
    start: usize,
    count: usize,
    dst: &mut [i32],
)
    requires { (is_side N ≡ true) × (S.count stages.now ≡ N) × (M ≤ 341) × (M ≡ square_at N) × (L ≡ 4 * N) × PassRoom N source.now.lines start count (length source.now.numbers.now) (length dst.old) }
    ensures { dst.new ≡ pass_lines 0 N source.now.shift.bits source.now.lines source.now.numbers.now start count dst.old }
{
    let mut wide = [0i32; M];
    widen_odd_squares(sizes::log2(N), &mut wide);
    let dct = Dct::<N, _> {
        setup: Setup {
            numbers: &wide,
            rounding: source.shift.rounding(),
        },
        stages,
    };
    let fours = (N == 8) | ((N == 16) & (count < 8));
    run_lines::<_, N, L>(fours, &dct, source, start, count, dst);
}

#[tactic(auto, using(lines::proofs::Arm::side_16))]
fn adst_lines(side: usize, source: &Source<'_>, start: usize, count: usize, dst: &mut [i32])
    requires { (is_side side ≡ true) × (has_kernel 1 side ≡ true) × PassRoom side source.now.lines start count (length source.now.numbers.now) (length dst.old) }
    ensures { dst.new ≡ pass_lines 1 side source.now.shift.bits source.now.lines source.now.numbers.now start count dst.old }
{
    match side {
        4 => dense_side::<1, 4, 16, 16>(kernels::adst4(), source, start, count, dst),
        8 => dense_side::<1, 8, 64, 32>(kernels::adst8(), source, start, count, dst),
        _ => dense_side::<1, 16, 256, 64>(kernels::adst16(), source, start, count, dst),
    }
}

// The transform of a kind at side N by all the M numbers of its kernel, lines of side 8 by fours.
#[inline(always)]
fn dense_side<const KIND: usize, const N: usize, const M: usize, const L: usize>(
    kernel: &[i8; M],
    source: &Source<'_>,
    start: usize,
    count: usize,
    dst: &mut [i32],
)
    requires { (is_side N ≡ true) × (N ≤ 16) × (M ≡ N * N) × (L ≡ 4 * N) × (kernel.now ≡ by_sample KIND N) × PassRoom N source.now.lines start count (length source.now.numbers.now) (length dst.old) }
    ensures { dst.new ≡ pass_lines KIND N source.now.shift.bits source.now.lines source.now.numbers.now start count dst.old }
{
    let mut wide = [0i32; M];
    widen_square(kernel, 0, N, N, &mut wide, 0);
    let dense = Dense::<KIND, N> {
        setup: Setup {
            numbers: &wide,
            rounding: source.shift.rounding(),
        },
    };
    run_lines::<_, N, L>(N == 8, &dense, source, start, count, dst);
}
