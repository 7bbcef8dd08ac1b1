// The numbers of a kernel at 32 bits.
ghost use Rattle.std.specs.Prelude.{◌≡◌, ℕ, ◌+◌, ◌*◌, ◌^◌, ◌≤◌, ◌<◌, length};
ghost use Rattle.laws.specs.Store.{stores, laid};
ghost use Rattle.lines.specs.Line.{from, place};
ghost use Rattle.lines.specs.Table.{from_place, row_number, square_at, OddSquares};

// Count numbers from a place on, stored from place to on.
#[inline(always)]
fn widen(numbers: &[i8], at: usize, count: usize, wide: &mut [i32], to: usize)
    requires { (at + count ≤ length numbers.now) × (to + count ≤ length wide.old) }
    ensures { wide.new ≡ stores wide.old count (from to) (from_place numbers.now at) }
{
    for k in 0..count {
        wide[to + k] = i32::from(numbers[at + k]);
    }
}

// A square of n rows of n numbers, stored row by row from place to on. Row r begins at place first + r × apart.
#[inline(always)]
pub fn widen_square(
    numbers: &[i8],
    first: usize,
    apart: usize,
    n: usize,
    wide: &mut [i32],
    to: usize,
)
    requires size { (0 < n) × (n ≤ 16) }
    requires places { (first ≤ 512) × (apart ≤ 1024) × (to + n * n ≤ length wide.old) }
    requires rows { (r : ℕ) → r < n → place first apart r + n ≤ length numbers.now }
    ensures { wide.new ≡ laid wide.old to (n * n) (row_number numbers.now first apart n) }
{
    for r in 0..n {
        widen(numbers, first + r * apart, n, wide, to + r * n);
    }
}

// Where the odd square of h stands, behind those of 1, 2, 4, .. below it.
#[inline(always)]
pub fn square_at(h: usize) -> usize
    requires { h ≤ 16 }
    ensures { result ≡ square_at h }
{
    h * h / 3
}

// The odd squares of 1, 2, 4, .., as many as a line is folded: all that a DCT reads. Row k of a smaller DCT is row 32k / n, and the odd ones of side
// 2h begin at 512 / h, 512 / h + 1024 / h, ..
#[inline(always)]
pub fn widen_odd_squares(folds: usize, wide: &mut [i32])
    requires { (folds ≤ 5) × (square_at (2 ^ folds) ≤ length wide.old) }
    ensures { OddSquares (2 ^ folds) wide.new }
{
    for d in 0..folds {
        let h = 1 << d;
        widen_square(kernels::dct32(), 512 / h, 1024 / h, h, wide, square_at(h));
    }
}
