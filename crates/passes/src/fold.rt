// The DCT of all lines of a pass, in one form for every side: the lines are folded to half their length until two samples remain, and the odd
// frequencies are summed at each stage.
ghost use Rattle.std.specs.Prelude.{◌≡◌, true, ◌*◌, ◌≤◌, length};
ghost use Rattle.laws.specs.Store.{grid};
ghost use Rattle.sizes.specs.Size.{is_side};
ghost use Rattle.lines.specs.Pass.{pass_lines};
ghost use Rattle.lines.specs.Room.{PassRoom};
ghost use Rattle.lines.specs.Table.{OddSquare, OddSquares, square_at};
ghost use Rattle.passes.specs.Fold.{Abreast, Even, Folding, Halvable, HalvedLines, Passed, RowRoom, Rows, odd_number, odd_row};

use super::rows::{butterflies, frequency, to_lines};
use fixed::Rounding;
use lines::{Line, Setup, Source, square_at, whole, widen_odd_squares};

// The odd frequencies of lines of 2h numbers, from their h differences, by the odd square: frequency g is stored in row g × step of o.
#[inline(always)]
fn odds<const B: usize>(setup: &Setup<'_>, h: usize, step: usize, diffs: &Source<'_>, o: &mut [i32])
    requires square { OddSquare h setup.now.numbers.now × Even h }
    requires rows { Abreast B diffs.now.lines × Rows h diffs.now.lines (length diffs.now.numbers.now) × RowRoom (2 * h) step diffs.now.lines (length o.old) }
    ensures { o.new ≡ grid o.old h diffs.now.lines (odd_row diffs.now.lines step) (odd_number h setup.now.rounding.shift.bits diffs.now.lines setup.now.numbers.now diffs.now.numbers.now) }
{
    for r in 0..h {
        let factors = Line {
            numbers: setup.numbers,
            at: square_at(h) + r * h,
            stride: 1,
            count: h,
        };
        let to = (2 * r + 1) * step * diffs.lines;
        frequency::<B>(setup.rounding, &factors, diffs, o, to);
    }
}

// One stage: lines of 2h numbers are folded to their h sums, and the odd frequencies come from the differences.
#[inline(always)]
fn halve_by<const B: usize>(
    setup: &Setup<'_>,
    h: usize,
    step: usize,
    source: &Source<'_>,
    sums: &mut [i32],
    diffs: &mut [i32],
    o: &mut [i32],
)
    requires square { OddSquare h setup.now.numbers.now × Even h }
    requires rows { Abreast B source.now.lines × Halvable h source.now.lines (length source.now.numbers.now) (length sums.old) (length diffs.old) × RowRoom (2 * h) step source.now.lines (length o.old) }
    ensures { HalvedLines h source.now.lines source.now.numbers.now sums.new diffs.new × (o.new ≡ grid o.old h source.now.lines (odd_row source.now.lines step) (odd_number h setup.now.rounding.shift.bits source.now.lines setup.now.numbers.now diffs.new)) }
{
    butterflies::<B>(h, source, sums, diffs);
    let diffs = Source {
        numbers: diffs,
        ..*source
    };
    odds::<B>(setup, h, step, &diffs, o);
}

// The same, eight lines at once, or four where there are but four.
#[inline(always)]
fn halve_lines(
    setup: &Setup<'_>,
    h: usize,
    step: usize,
    source: &Source<'_>,
    sums: &mut [i32],
    diffs: &mut [i32],
    o: &mut [i32],
)
    requires square { OddSquare h setup.now.numbers.now × Even h }
    requires rows { Halvable h source.now.lines (length source.now.numbers.now) (length sums.old) (length diffs.old) × RowRoom (2 * h) step source.now.lines (length o.old) }
    ensures { HalvedLines h source.now.lines source.now.numbers.now sums.new diffs.new × (o.new ≡ grid o.old h source.now.lines (odd_row source.now.lines step) (odd_number h setup.now.rounding.shift.bits source.now.lines setup.now.numbers.now diffs.new)) }
{
    if source.lines == 4 {
        halve_by::<4>(setup, h, step, source, sums, diffs, o);
    } else {
        halve_by::<8>(setup, h, step, source, sums, diffs, o);
    }
}

// The frequencies of lines of two samples, by the kernel of side 2: 64, 64 and 64, -64.
#[inline(always)]
fn two_by<const B: usize>(rounding: Rounding, step: usize, source: &Source<'_>, o: &mut [i32])
    requires { Abreast B source.now.lines × Rows 2 source.now.lines (length source.now.numbers.now) × RowRoom 2 step source.now.lines (length o.old) }
    ensures { Passed 2 step rounding.shift.bits source.now.lines source.now.numbers.now o.old o.new }
{
    frequency::<B>(rounding, &whole(&[64, 64]), source, o, 0);
    frequency::<B>(rounding, &whole(&[64, -64]), source, o, step * source.lines);
}

// The same, eight lines at once, or four where there are but four.
#[inline(always)]
fn two_samples(rounding: Rounding, step: usize, source: &Source<'_>, o: &mut [i32])
    requires { Rows 2 source.now.lines (length source.now.numbers.now) × RowRoom 2 step source.now.lines (length o.old) }
    ensures { Passed 2 step rounding.shift.bits source.now.lines source.now.numbers.now o.old o.new }
{
    if source.lines == 4 {
        two_by::<4>(rounding, step, source, o);
    } else {
        two_by::<8>(rounding, step, source, o);
    }
}

// The frequencies of lines of m numbers: frequency f is stored in row f × step of o. What the lines are folded to is kept in work.
fn dct_fold(
    setup: &Setup<'_>,
    m: usize,
    step: usize,
    source: &Source<'_>,
    work: &mut [i32],
    o: &mut [i32],
)
    requires { Folding m step source.now.lines (length source.now.numbers.now) (length work.old) (length o.old) setup.now.numbers.now }
    ensures { Passed m step setup.now.rounding.shift.bits source.now.lines source.now.numbers.now o.old o.new }
{
    // Copies, so that what is stored can't be thought to change them.
    let (setup, source) = (*setup, *source);
    if m == 2 {
        two_samples(setup.rounding, step, &source, o);
        return;
    }
    let h = m / 2;
    let (sums, rest) = work.split_at_mut(h * source.lines);
    halve_lines(&setup, h, step, &source, sums, rest, o);
    let sums = Source {
        numbers: sums,
        ..source
    };
    dct_fold(&setup, h, 2 * step, &sums, rest, o);
}

// Every line of a DCT of side N, with room for S frequencies. dst has what the lines are folded to until the frequencies are turned into it.
#[inline(always)]
fn all_lines<const N: usize, const S: usize>(
    setup: &Setup<'_>,
    source: &Source<'_>,
    dst: &mut [i32],
)
    requires side { (is_side N ≡ true) × OddSquares N setup.now.numbers.now }
    requires lines { (is_side source.now.lines ≡ true) × PassRoom N source.now.lines 0 source.now.lines (length source.now.numbers.now) (length dst.old) }
    requires room { (S ≤ 1024) × (N * source.now.lines ≤ S) }
    ensures { dst.new ≡ pass_lines 0 N setup.now.rounding.shift.bits source.now.lines source.now.numbers.now 0 source.now.lines dst.old }
{
    let lines = source.lines;
    let mut o = [0i32; S];
    dct_fold(setup, N, 1, source, &mut dst[..N * lines], &mut o);
    to_lines(N, lines, &o, dst);
}

// Every line of a DCT of side N, by the M numbers of its odd squares. T = N × 8 and S = N × 32 are the room of at most eight lines and of at most 32.
#[inline(always)]
fn dct_side<const N: usize, const M: usize, const T: usize, const S: usize>(
    source: &Source<'_>,
    dst: &mut [i32],
)
    requires side { (is_side N ≡ true) × (M ≤ 341) × (M ≡ square_at N) × (S ≤ 1024) × (T ≡ N * 8) × (S ≡ N * 32) }
    requires lines { (is_side source.now.lines ≡ true) × PassRoom N source.now.lines 0 source.now.lines (length source.now.numbers.now) (length dst.old) }
    ensures { dst.new ≡ pass_lines 0 N source.now.shift.bits source.now.lines source.now.numbers.now 0 source.now.lines dst.old }
{
    let mut wide = [0i32; M];
    widen_odd_squares(sizes::log2(N), &mut wide);
    let setup = Setup {
        numbers: &wide,
        rounding: source.shift.rounding(),
    };
    if source.lines <= 8 {
        all_lines::<N, T>(&setup, source, dst);
    } else {
        all_lines::<N, S>(&setup, source, dst);
    }
}

// Every line of a DCT. Each side has its own arm, for the room that it takes.
#[tactic(auto, using(lines::proofs::Arm::side_32))]
pub(crate) fn dct(side: usize, source: &Source<'_>, dst: &mut [i32])
    requires { (is_side side ≡ true) × (is_side source.now.lines ≡ true) × PassRoom side source.now.lines 0 source.now.lines (length source.now.numbers.now) (length dst.old) }
    ensures { dst.new ≡ pass_lines 0 side source.now.shift.bits source.now.lines source.now.numbers.now 0 source.now.lines dst.old }
{
    match side {
        4 => dct_side::<4, 5, 32, 128>(source, dst),
        8 => dct_side::<8, 21, 64, 256>(source, dst),
        16 => dct_side::<16, 85, 128, 512>(source, dst),
        _ => dct_side::<32, 341, 256, 1024>(source, dst),
    }
}
