// The transform of a line, and of some lines from a start.
ghost use Rattle.std.specs.Prelude.{◌≡◌, ◌*◌, ◌<◌, ◌≤◌, ℕ, length};
ghost use Rattle.laws.specs.Store.{stores};
ghost use Rattle.lines.specs.Pass.{pass_at, pass_lines};
ghost use Rattle.lines.specs.Room.{PassRoom, LineRoom, on_line};

use super::spaced::Source;

pub trait Transform {
    ghost kind: { Self → ℕ };

    ghost side: { Self → ℕ };

    ghost shift: { Self → ℕ };

    // Line j of the source, transformed and stored as line `to` of dst.
    fn line(&self, source: &Source<'_>, j: usize, dst: &mut [i32], to: usize)
        requires { LineRoom (side self.now) source.now.lines j (length source.now.numbers.now) to (length dst.old) }
        ensures { dst.new ≡ stores dst.old (side self.now) (on_line (side self.now) to) (pass_at (kind self.now) (side self.now) (shift self.now) source.now.lines source.now.numbers.now j) };
}

// Count lines from start on, four at a time where that is asked for.
#[inline(always)]
pub fn run_lines<T: Transform, const N: usize, const L: usize>(
    fours: bool,
    transform: &T,
    source: &Source<'_>,
    start: usize,
    count: usize,
    dst: &mut [i32],
)
    requires side { (T.side transform.now ≡ N) × (0 < N) × (N ≤ 32) × (L ≡ 4 * N) }
    requires room { PassRoom N source.now.lines start count (length source.now.numbers.now) (length dst.old) }
    ensures { dst.new ≡ pass_lines (T.kind transform.now) N (T.shift transform.now) source.now.lines source.now.numbers.now start count dst.old }
{
    if fours {
        by_fours::<_, N, L>(transform, source, start, count, dst);
    } else {
        each_line(transform, source, start, count, dst);
    }
}

// Each line by itself, stored where it belongs.
#[inline(always)]
fn each_line<T: Transform>(
    transform: &T,
    source: &Source<'_>,
    start: usize,
    count: usize,
    dst: &mut [i32],
)
    requires side { (0 < T.side transform.now) × (T.side transform.now ≤ 32) }
    requires room { PassRoom (T.side transform.now) source.now.lines start count (length source.now.numbers.now) (length dst.old) }
    ensures { dst.new ≡ pass_lines (T.kind transform.now) (T.side transform.now) (T.shift transform.now) source.now.lines source.now.numbers.now start count dst.old }
{
    // A copy, so that what is stored in dst can't be thought to change it.
    let source = *source;
    for i in 0..count {
        let j = start + i;
        transform.line(&source, j, dst, j);
    }
}

// Four lines at a time: they are staged in L = 4 × N numbers and stored together, so that the compiler works on all four at once.
#[inline(always)]
fn by_fours<T: Transform, const N: usize, const L: usize>(
    transform: &T,
    source: &Source<'_>,
    start: usize,
    count: usize,
    dst: &mut [i32],
)
    requires side { (T.side transform.now ≡ N) × (0 < N) × (N ≤ 32) × (L ≡ 4 * N) }
    requires room { PassRoom N source.now.lines start count (length source.now.numbers.now) (length dst.old) }
    ensures { dst.new ≡ pass_lines (T.kind transform.now) N (T.shift transform.now) source.now.lines source.now.numbers.now start count dst.old }
{
    let source = *source;
    let mut o = [0i32; L];
    let fours = count / 4;
    for four in 0..fours {
        let j = start + 4 * four;
        for q in 0..4 {
            transform.line(&source, j + q, &mut o, q);
        }
        dst[j * N..j * N + L].copy_from_slice(&o);
    }
    for i in 4 * fours..count {
        let j = start + i;
        transform.line(&source, j, dst, j);
    }
}
