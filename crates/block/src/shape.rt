// A block's sides and kinds, and lines of its two passes.
ghost use Rattle.std.specs.Prelude.{◌≡◌, true, false, cond, ◌+◌, ◌≤◌, length, MatchResult};
ghost use Rattle.laws.specs.Store.{laid};
ghost use Rattle.answer.specs.declared.Refusal.TheVariants.{BadKind};
ghost use Rattle.kernels.specs.Kernel.{has_kernel};
ghost use Rattle.kernels.specs.Kind.{kind_number};
ghost use Rattle.block.specs.Call.{is_kind, has_kinds};
ghost use Rattle.block.specs.Block.{is_odd};
ghost use Rattle.block.specs.Lines.{column_lines, row_lines, lines_of, scaled_at};
ghost use Rattle.block.specs.Room.{BlockRoom};

use answer::Refusal;
use kernels::Kind;
use lines::Source;
use sizes::Size;

// The kind of this number, which is to be one that a block of these sides may have, whatever they are.
#[inline(always)]
#[tactic(auto, unfolding(crate::specs::Call::is_kind, kernels::specs::Kernel::has_kernel))]
fn kind_of(w: usize, h: usize, kind: u32) -> Result<Kind, Refusal>
    ensures { MatchResult result (λ k. (kind_number k ≡ kind) × (has_kernel kind h ≡ true) × (has_kernel kind w ≡ true) × (is_kind w h kind ≡ true)) (λ why. (why ≡ BadKind) × (is_kind w h kind ≡ false)) }
{
    if kind == 0 {
        return Ok(Kind::Dct);
    }
    if w != h {
        return Err(Refusal::BadKind);
    }
    Kind::new(kind, w)
}

// The kinds of the columns and of the rows of a block of any sides: number 2's rule.
#[inline(always)]
#[tactic(auto, unfolding(crate::specs::Call::has_kinds))]
pub fn kinds(w: usize, h: usize, column_kind: u32, row_kind: u32) -> Result<(Kind, Kind), Refusal>
    ensures { MatchResult result (λ k. (kind_number k.0 ≡ column_kind) × (kind_number k.1 ≡ row_kind) × (has_kernel column_kind h ≡ true) × (has_kernel row_kind w ≡ true) × (has_kinds w h column_kind row_kind ≡ true)) (λ why. (why ≡ BadKind) × (has_kinds w h column_kind row_kind ≡ false)) }
{
    let columns = kind_of(w, h, column_kind)?;
    let rows = kind_of(w, h, row_kind)?;
    Ok((columns, rows))
}

#[derive(Clone, Copy)]
pub struct Shape {
    pub size: Size,
    pub columns: Kind,
    pub rows: Kind,
    ghost column_kernel: { has_kernel (kind_number columns) size.h ≡ true },
    ghost row_kernel: { has_kernel (kind_number rows) size.w ≡ true },
}

impl Shape {
    #[inline(always)]
    pub fn new(size: Size, column_kind: u32, row_kind: u32) -> Result<Shape, Refusal>
        ensures { MatchResult result (λ s. (s.size.w ≡ size.w) × (s.size.h ≡ size.h) × (kind_number s.columns ≡ column_kind) × (kind_number s.rows ≡ row_kind) × (has_kinds size.w size.h column_kind row_kind ≡ true)) (λ why. (why ≡ BadKind) × (has_kinds size.w size.h column_kind row_kind ≡ false)) }
    {
        let (columns, rows) = kinds(size.w, size.h, column_kind, row_kind)?;
        Ok(Shape {
            size,
            columns,
            rows,
        })
    }

    // Count column lines from start on, into scratch.
    pub fn column_lines(self, start: usize, count: usize, residuals: &[i32], scratch: &mut [i32])
        requires { BlockRoom self.size.w self.size.h (start + count) self.size.w self.size.h (length residuals.now) (length scratch.old) }
        ensures { scratch.new ≡ column_lines self.size.w self.size.h (kind_number self.columns) residuals.now start count scratch.old }
    {
        let source = Source {
            numbers: residuals,
            lines: self.size.w,
            shift: self.size.shifts().first,
        };
        lanes::run(self.size.h, self.columns, &source, start, count, scratch);
    }

    // Count row lines from start on, into output, scaled where a block is.
    pub fn row_lines(self, start: usize, count: usize, scratch: &[i32], output: &mut [i32])
        requires { BlockRoom self.size.w self.size.h (start + count) self.size.h self.size.w (length scratch.now) (length output.old) }
        ensures { output.new ≡ row_lines self.size.w self.size.h (kind_number self.rows) scratch.now start count output.old }
    {
        let w = self.size.w;
        let source = Source {
            numbers: scratch,
            lines: self.size.h,
            shift: self.size.shifts().second,
        };
        lanes::run(w, self.rows, &source, start, count, output);
        if self.is_odd() {
            scale(output, start * w, count * w);
        }
    }

    // Count lines of one of the passes: row lines from the scratch into the output, or column lines from the residuals into the scratch. The Bool is a
    // batch's own, looked at once.
    #[inline(always)]
    pub fn lines(self, row: bool, start: usize, count: usize, source: &[i32], target: &mut [i32])
        requires { BlockRoom self.size.w self.size.h (start + count) (cond row self.size.h self.size.w) (cond row self.size.w self.size.h) (length source.now) (length target.old) }
        ensures { target.new ≡ lines_of self.size.w self.size.h (kind_number self.columns) (kind_number self.rows) row source.now start count target.old }
    {
        if row {
            self.row_lines(start, count, source, target);
        } else {
            self.column_lines(start, count, source, target);
        }
    }

    // Whether the logarithms of the sides add to an odd number.
    #[inline(always)]
    #[tactic(auto, unfolding(crate::specs::Block::is_odd))]
    fn is_odd(self) -> bool
        ensures { result ≡ is_odd self.size.w self.size.h }
    {
        self.size.log2() % 2 == 1
    }
}

// The n numbers from at on, scaled: lines among others, told by start and count as the caller's are.
fn scale(numbers: &mut [i32], at: usize, n: usize)
    requires { at + n ≤ length numbers.old }
    ensures { numbers.new ≡ laid numbers.old at n (scaled_at numbers.old at) }
{
    for i in 0..n {
        let place = at + i;
        numbers[place] = fixed::rect_scale(numbers[place]);
    }
}
