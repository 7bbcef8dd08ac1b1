// Where the numbers of a line lie.
ghost use Rattle.std.specs.Prelude.{◌≡◌, length};
ghost use Rattle.lines.specs.Line.{EndsIn};

use fixed::Shift;

// Some numbers of a list: the first at a place, then one every stride places, count of them.
#[derive(Drop)]
pub struct Line<'a> {
    pub numbers: &'a [i32],
    pub at: usize,
    pub stride: usize,
    pub count: usize,
    ghost inside: { EndsIn count stride at (length numbers.now) },
}

// A whole list as a line.
#[inline(always)]
pub fn whole(numbers: &[i32]) -> Line<'_>
    ensures { (result.numbers.now ≡ numbers.now) × (result.at ≡ 0) × (result.stride ≡ 1) × (result.count ≡ length numbers.now) }
{
    Line {
        numbers,
        at: 0,
        stride: 1,
        count: numbers.len(),
    }
}

// What a pass reads, or a stage of one: lines that lie side by side, so that number k of line j stands at place k × lines + j; and its shift.
#[derive(Clone, Copy)]
pub struct Source<'a> {
    pub numbers: &'a [i32],
    pub lines: usize,
    pub shift: Shift,
}

impl<'a> Source<'a> {
    // Line j, of n numbers.
    #[inline(always)]
    pub fn line(&self, j: usize, n: usize) -> Line<'a>
        requires { EndsIn n self.now.lines j (length self.now.numbers.now) }
        ensures { (result.numbers.now ≡ self.now.numbers.now) × (result.at ≡ j) × (result.stride ≡ self.now.lines) × (result.count ≡ n) }
    {
        Line {
            numbers: self.numbers,
            at: j,
            stride: self.lines,
            count: n,
        }
    }
}
