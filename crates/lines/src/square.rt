// The sums of products that frequencies are.
ghost use Rattle.std.specs.Prelude.{◌≡◌, ◌+◌, ◌+ℤ◌, ◌*◌, ◌≤◌, ◌<◌, length};
ghost use Rattle.laws.specs.Integer.{wrap32};
ghost use Rattle.laws.specs.Store.{stores};
ghost use Rattle.lines.specs.Line.{dot, itself, line_at, rounded};

use super::spaced::Line;
use fixed::Rounding;

// What a pass makes once for all its lines, before its loops: the numbers of its kernel at 32 bits, and its rounding.
#[derive(Clone, Copy)]
pub struct Setup<'a> {
    pub numbers: &'a [i32],
    pub rounding: Rounding,
}

// A square of kernel numbers from a place on: sample k's for frequency r at place at + k × side + r, so that those of a sample lie side by side.
#[derive(Clone, Copy)]
pub(crate) struct Square<'a> {
    pub(crate) numbers: &'a [i32],
    pub(crate) at: usize,
    pub(crate) side: usize,
    ghost inside: { at + side * side ≤ length numbers.now },
}

// The products of a row with a line, added to the half.
#[inline(always)]
fn add_products(half: i32, row: &Line<'_>, line: &Line<'_>) -> i32
    requires { row.now.count ≡ line.now.count }
    ensures { result ≡ wrap32 (half +ℤ dot line.now.count (line_at row.now.numbers.now row.now.at row.now.stride) (line_at line.now.numbers.now line.now.at line.now.stride)) }
{
    let mut sum = half;
    for k in 0..line.count {
        let factor = row.numbers[k * row.stride + row.at];
        let sample = line.numbers[k * line.stride + line.at];
        sum = fixed::wrapping_add(sum, fixed::wrapping_mul(factor, sample));
    }
    sum
}

// Every frequency of a line by a square of numbers: a sum that begins at the half, shifted when all is added.
#[inline(always)]
pub(crate) fn sums(square: &Square<'_>, line: &Line<'_>, rounding: Rounding, y: &mut [i32])
    requires { (0 < square.now.side) × (line.now.count ≡ square.now.side) × (square.now.side ≤ length y.old) }
    ensures { y.new ≡ stores y.old square.now.side itself (rounded rounding.shift.bits square.now.side square.now.numbers.now square.now.at (line_at line.now.numbers.now line.now.at line.now.stride)) }
{
    let n = square.side;
    for r in 0..n {
        let row = Line {
            numbers: square.numbers,
            at: square.at + r,
            stride: n,
            count: n,
        };
        y[r] = rounding.finish(add_products(rounding.half, &row, line));
    }
}
