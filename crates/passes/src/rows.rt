// Rows of numbers: row k has number k of every line. B lines are worked at once, so that the compiler works on them together.
ghost use Rattle.std.specs.Prelude.{◌≡◌, ◌+◌, ◌+ℤ◌, ◌*◌, ◌≤◌, ◌<◌, ℕ, length};
ghost use Rattle.laws.specs.Integer.{wrap32};
ghost use Rattle.laws.specs.Store.{grid, stores};
ghost use Rattle.fixed.specs.Fixed.{round_shift};
ghost use Rattle.lines.specs.Line.{diff_of, dot, from, line_at, number, sum_of};
ghost use Rattle.lines.specs.Room.{on_line};
ghost use Rattle.passes.specs.Fold.{Abreast, Even, Halvable, HalvedLines, Rows, row};

use fixed::Rounding;
use lines::{Line, Source};

// Sample k of B lines from line j on.
#[inline(always)]
fn samples<const B: usize>(source: &Source<'_>, k: usize, j: usize) -> [i32; B]
    requires { k * source.now.lines + (j + B) ≤ length source.now.numbers.now }
    ensures { (i : ℕ) → i < B → number result i ≡ line_at source.now.numbers.now (j + i) source.now.lines k }
{
    let mut x = [0i32; B];
    for i in 0..B {
        x[i] = source.numbers[k * source.lines + (j + i)];
    }
    x
}

// Row k of the sums and of the differences, of lines that are folded to h numbers. In two loops, so that the numbers of each are stored together.
#[inline(always)]
fn butterfly<const B: usize>(
    h: usize,
    k: usize,
    source: &Source<'_>,
    sums: &mut [i32],
    diffs: &mut [i32],
)
    requires { Abreast B source.now.lines × (k < h) × Halvable h source.now.lines (length source.now.numbers.now) (length sums.old) (length diffs.old) }
    ensures sums_after { sums.new ≡ stores sums.old source.now.lines (row source.now.lines k) (λ j. sum_of (line_at source.now.numbers.now j source.now.lines) h k) }
    ensures diffs_after { diffs.new ≡ stores diffs.old source.now.lines (row source.now.lines k) (λ j. diff_of (line_at source.now.numbers.now j source.now.lines) h k) }
{
    for b in 0..source.lines / B {
        let j = B * b;
        let p = samples::<B>(source, k, j);
        let q = samples::<B>(source, 2 * h - 1 - k, j);
        for i in 0..B {
            sums[k * source.lines + (j + i)] = fixed::wrapping_add(p[i], q[i]);
        }
        for i in 0..B {
            diffs[k * source.lines + (j + i)] = fixed::wrapping_sub(p[i], q[i]);
        }
    }
}

// The butterfly of every line: its h sums and its h differences.
#[inline(always)]
pub(crate) fn butterflies<const B: usize>(
    h: usize,
    source: &Source<'_>,
    sums: &mut [i32],
    diffs: &mut [i32],
)
    requires { Abreast B source.now.lines × Halvable h source.now.lines (length source.now.numbers.now) (length sums.old) (length diffs.old) }
    ensures { HalvedLines h source.now.lines source.now.numbers.now sums.new diffs.new }
{
    for k in 0..h {
        butterfly::<B>(h, k, source, sums, diffs);
    }
}

// Of each of B lines from line j on, the products of the factors with its numbers, added to the half; two numbers at a time.
#[inline(always)]
fn add_products<const B: usize>(
    half: i32,
    factors: &Line<'_>,
    source: &Source<'_>,
    j: usize,
) -> [i32; B]
    requires { Rows factors.now.count source.now.lines (length source.now.numbers.now) × Even factors.now.count × (j + B ≤ source.now.lines) }
    ensures { (i : ℕ) → i < B → number result i ≡ wrap32 (half +ℤ dot factors.now.count (line_at factors.now.numbers.now factors.now.at factors.now.stride) (line_at source.now.numbers.now (j + i) source.now.lines)) }
{
    let lines = source.lines;
    let mut sums = [half; B];
    for k in 0..factors.count / 2 {
        let p = factors.numbers[2 * k * factors.stride + factors.at];
        let q = factors.numbers[(2 * k + 1) * factors.stride + factors.at];
        for i in 0..B {
            let u = fixed::wrapping_mul(p, source.numbers[2 * k * lines + j + i]);
            let v = fixed::wrapping_mul(q, source.numbers[(2 * k + 1) * lines + j + i]);
            sums[i] = fixed::wrapping_add(fixed::wrapping_add(sums[i], u), v);
        }
    }
    sums
}

// A frequency of every line, by its factors, stored from place to on.
#[inline(always)]
pub(crate) fn frequency<const B: usize>(
    rounding: Rounding,
    factors: &Line<'_>,
    source: &Source<'_>,
    o: &mut [i32],
    to: usize,
)
    requires rows { Abreast B source.now.lines × Rows factors.now.count source.now.lines (length source.now.numbers.now) × Even factors.now.count }
    requires room { to + source.now.lines ≤ length o.old }
    ensures { o.new ≡ stores o.old source.now.lines (from to) (λ j. round_shift rounding.shift.bits (dot factors.now.count (line_at factors.now.numbers.now factors.now.at factors.now.stride) (line_at source.now.numbers.now j source.now.lines))) }
{
    for b in 0..source.lines / B {
        let sums = add_products::<B>(rounding.half, factors, source, B * b);
        for i in 0..B {
            o[to + (B * b + i)] = rounding.finish(sums[i]);
        }
    }
}

// Rows turned to lines: number f of line j is number j of row f.
#[inline(always)]
pub(crate) fn to_lines(n: usize, lines: usize, rows: &[i32], dst: &mut [i32])
    requires { (n ≤ 32) × (lines ≤ 32) × (n * lines ≤ length rows.now) × (lines * n ≤ length dst.old) }
    ensures { dst.new ≡ grid dst.old lines n (on_line n) (λ j f. line_at rows.now j lines f) }
{
    for j in 0..lines {
        for f in 0..n {
            dst[j * n + f] = rows[f * lines + j];
        }
    }
}
