// The fold of a DCT: a line to half its length.
ghost use Rattle.std.specs.Prelude.{◌≡◌, ◌≤◌, ◌*◌, ◌<◌, ℕ, length};
ghost use Rattle.laws.specs.Store.{stores};
ghost use Rattle.lines.specs.Line.{itself, line_at, place, number, rounded, Butterfly, Halving, Halved};
ghost use Rattle.lines.specs.Table.{OddSquare, square_at};

use super::spaced::{Line, whole};
use super::square::{Setup, Square, sums};
use super::wide::square_at;

// The butterfly: the sums and the differences of a line's numbers, the first with the last, the second with the last but one, ..
#[inline(always)]
fn fold(line: &Line<'_>, s: &mut [i32], d: &mut [i32])
    requires { (line.now.count ≡ 2 * length s.old) × (length s.old ≤ length d.old) × (length s.old ≤ 16) }
    ensures { Butterfly (length s.old) (line_at line.now.numbers.now line.now.at line.now.stride) (number s.new) (number d.new) }
{
    let h = s.len();
    for k in 0..h {
        let p = line.numbers[k * line.stride + line.at];
        let q = line.numbers[(2 * h - 1 - k) * line.stride + line.at];
        s[k] = fixed::wrapping_add(p, q);
        d[k] = fixed::wrapping_sub(p, q);
    }
}

// The sums of the odd square of h with a line of h numbers. It is widened by rows, but it is symmetric: row k has sample k's numbers too.
#[inline(always)]
fn square_sums(setup: &Setup<'_>, line: &Line<'_>, y: &mut [i32])
    requires { (0 < line.now.count) × (line.now.count ≤ 16) × OddSquare line.now.count setup.now.numbers.now × (line.now.count ≤ length y.old) }
    ensures { y.new ≡ stores y.old line.now.count itself (rounded setup.now.rounding.shift.bits line.now.count setup.now.numbers.now (square_at line.now.count) (line_at line.now.numbers.now line.now.at line.now.stride)) }
{
    let h = line.count;
    let square = Square {
        numbers: setup.numbers,
        at: square_at(h),
        side: h,
    };
    sums(&square, line, setup.rounding, y);
}

// Numbers that were worked out side by side, each stored in its place: the first, and then one every apart places.
#[inline(always)]
fn spread(y: &[i32], first: usize, apart: usize, o: &mut [i32])
    requires { (first ≤ 16) × (apart ≤ 32) × (length y.now ≤ 16) × ((r : ℕ) → r < length y.now → place first apart r < length o.old) }
    ensures { o.new ≡ stores o.old (length y.now) (place first apart) (number y.now) }
{
    for r in 0..y.len() {
        o[first + r * apart] = y[r];
    }
}

// One stage of a DCT: a line is folded to its sums s, half as many, and from its differences come the odd frequencies among those of every
// step-th of the side. They are summed side by side, and then stored each in its place.
#[inline(always)]
pub fn halve(setup: &Setup<'_>, step: usize, line: &Line<'_>, s: &mut [i32], o: &mut [i32])
    requires { Halving (length s.old) step line.now.count (length o.old) setup.now.numbers.now }
    ensures { Halved (length s.old) step setup.now.rounding.shift.bits setup.now.numbers.now (line_at line.now.numbers.now line.now.at line.now.stride) o.old s.new o.new }
{
    let h = s.len();
    let mut d = [0i32; 16];
    fold(line, s, &mut d);
    let mut y = [0i32; 16];
    square_sums(setup, &whole(&d[..h]), &mut y);
    spread(&y[..h], step, 2 * step, o);
}

// Frequency 0, from the one number that the whole line is folded to.
#[inline(always)]
pub fn zeroth(setup: &Setup<'_>, s: &[i32], o: &mut [i32])
    requires { (length s.now ≡ 1) × OddSquare 1 setup.now.numbers.now × (0 < length o.old) }
    ensures { o.new ≡ stores o.old 1 itself (rounded setup.now.rounding.shift.bits 1 setup.now.numbers.now 0 (line_at s.now 0 1)) }
{
    square_sums(setup, &whole(s), o);
}
