// A batch: its tests, and its lines worked out and marked.
ghost use Rattle.std.specs.Prelude.{◌≡◌, ◌+◌, ◌≤◌, IfOk};
ghost use Rattle.kernels.specs.Kind.{kind_number};
ghost use Rattle.tickets.specs.Admitted.{admitted};
ghost use Rattle.tickets.specs.Batch.{line_count, out_of_range, out_of_order, answer_unless, with_batch, batch, gives};

use super::marking::{all_marked, any_from, with_lines};
use super::{Batch, Batched, Ticket};
use answer::Refusal;
use block::Shape;
use sizes::Size;

// Number 5's rule.
#[tactic(auto, unfolding(crate::specs::Batch::out_of_range))]
fn out_of_range(lines: usize, start: usize, count: usize) -> bool
    ensures { result ≡ out_of_range lines start count }
{
    let more = (count == 4) | (count == 8);
    !((count == 1) | (more & (start % 4 == 0))) | sizes::ends_past(lines, start, count)
}

// Number 6's rule.
#[tactic(auto, unfolding(crate::specs::Batch::out_of_order))]
pub fn out_of_order(t: Ticket, row: bool) -> bool
    requires { (t.w ≤ 32) × (t.h ≤ 32) }
    ensures { result ≡ out_of_order t row }
{
    any_from(t.columns, t.w)
        | (any_from(t.rows, t.h) | (!all_marked(t.columns, t.w) & (any_from(t.rows, 0) | row)))
}

// The ticket with a batch's lines marked.
#[inline(always)]
#[tactic(auto, unfolding(crate::specs::Batch::with_batch))]
pub fn with_batch(t: Ticket, b: Batch) -> Ticket
    requires { b.start + b.count ≤ 32 }
    ensures { result ≡ with_batch t b }
{
    if b.row {
        Ticket {
            rows: with_lines(t.rows, b.start, b.count),
            ..t
        }
    } else {
        Ticket {
            columns: with_lines(t.columns, b.start, b.count),
            ..t
        }
    }
}

// How many lines a block has of a batch's kind, by its own Bool.
#[inline(always)]
fn line_count(t: Ticket, row: bool) -> usize
    ensures { result ≡ line_count t.w t.h row }
{
    if row { t.h } else { t.w }
}

// The block of a batch that is lent buffers of these lengths to read and to write, or the lowest number that applies.
// short: a further lent buffer is too short.
#[inline(always)]
#[tactic(auto, unfolding(crate::specs::Batch::answer_unless, answer::specs::Answer::lowest), using(sizes::proofs::Side::side_bounds))]
pub fn admit(
    short: bool,
    t: Ticket,
    b: Batch,
    source: usize,
    target: usize,
) -> Result<Shape, Refusal>
    ensures answer { admitted b.count result ≡ answer_unless short t b source target }
    ensures as_asked { IfOk result (λ s. (s.size.w ≡ t.w) × (s.size.h ≡ t.h) × (kind_number s.columns ≡ t.column_kind) × (kind_number s.rows ≡ t.row_kind)) }
{
    let size = Size::new(t.w, t.h)?;
    let shape = Shape::new(size, t.column_kind, t.row_kind)?;
    let places = size.places();
    if short | ((source < places) | (target < places)) {
        return Err(Refusal::ShortBuffer);
    }
    if out_of_range(line_count(t, b.row), b.start, b.count) {
        return Err(Refusal::BatchRange);
    }
    if out_of_order(t, b.row) {
        return Err(Refusal::BatchOrder);
    }
    Ok(shape)
}

// A batch: source is the residuals and target the scratch buffer for columns, the scratch buffer and the output for rows. Inlined, since each of C's two
// calls runs batches of one kind.
#[inline(always)]
#[tactic(auto, unfolding(crate::specs::Batch::batch))]
pub fn run(ticket: Ticket, b: Batch, source: &[i32], target: &mut [i32]) -> Batched
    ensures { gives result target.new ≡ batch ticket b source.now target.old }
{
    match admit(false, ticket, b, source.len(), target.len()) {
        Ok(shape) => {
            shape.lines(b.row, b.start, b.count, source, target);
            Batched {
                ticket: with_batch(ticket, b),
                outcome: Ok(b.count),
            }
        }
        Err(why) => Batched {
            ticket,
            outcome: Err(why),
        },
    }
}
