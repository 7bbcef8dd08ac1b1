// A look at the lines of a batch before it is run: they go into a buffer of their own, and the ticket and the work buffers stay as they are.
#![tactic(auto)]

ghost use Rattle.std.specs.Prelude.{◌≡◌};
ghost use Rattle.tickets.specs.Batch.{line_length};
ghost use Rattle.previews.specs.Preview.{is_short, shows, preview_of};

use answer::Outcome;
use tickets::{Batch, Ticket};

// How many numbers a line of a batch's kind has, by its own Bool.
#[inline(always)]
fn line_length(t: Ticket, row: bool) -> usize
    ensures { result ≡ line_length t.w t.h row }
{
    if row { t.w } else { t.h }
}

// Number 3's rule for a preview buffer of length room: shorter than the batch's lines. Judged for 1, 4 or 8 lines; the ticket's sides
// aren't tested yet, so nothing is multiplied by them.
#[inline(always)]
#[tactic(auto, unfolding(crate::specs::Preview::is_short), using(laws::proofs::Divide::ltb_div))]
fn is_short(t: Ticket, b: Batch, room: usize) -> bool
    ensures { result ≡ is_short b.count (line_length t.w t.h b.row) room }
{
    let side = line_length(t, b.row);
    match b.count {
        1 => room < side,
        4 => room / 4 < side,
        8 => room / 8 < side,
        _ => false,
    }
}

// The lines that a batch would write to target, into the front of the preview buffer. Of the source it reads from the batch's first line
// on, so that these lines are the first.
#[tactic(auto, unfolding(crate::specs::Preview::preview_of))]
pub fn preview(
    ticket: Ticket,
    b: Batch,
    source: &[i32],
    target: &[i32],
    preview: &mut [i32],
) -> Outcome
    ensures { shows result preview.new ≡ preview_of ticket b source.now target.now preview.old }
{
    let short = is_short(ticket, b, preview.len());
    let shape = tickets::admit(short, ticket, b, source.len(), target.len())?;
    let from = &source[b.start..];
    shape.lines(b.row, 0, b.count, from, preview);
    Ok(b.count)
}
