// Tickets: a block done in batches of lines, in any order.
#![tactic(auto)]

mod marking;
mod opening;
mod playing;
mod running;

ghost use Rattle.std.specs.Prelude.{◌≡◌, true, false};
ghost use Rattle.tickets.specs.Batch.{batch_of};

use answer::Outcome;
pub use opening::{new_ticket, open};
pub use playing::play;
pub use running::{admit, out_of_order, run, with_batch};

// Document 01: "A ticket holds sides, kinds and one mark per column line and row line." Bit j of a mask is the mark of line j;
// a mask has room for a mark past the line count, which every batch refuses. The numbers are the C interface's, which lends tickets
// whose sides and kinds are any.
#[repr(C)]
#[derive(Clone, Copy)]
pub struct Ticket {
    pub w: usize,
    pub h: usize,
    pub column_kind: u32,
    pub row_kind: u32,
    pub columns: u32,
    pub rows: u32,
}

// Lines of a block's pass: the first of them, and how many. Condition 3's definitions tell rows from columns by a Bool.
#[derive(Clone, Copy)]
pub struct Batch {
    pub row: bool,
    pub start: usize,
    pub count: usize,
}

impl Batch {
    // A column batch: lines of the first pass, from the residuals into the scratch buffer.
    #[inline(always)]
    pub fn columns(start: usize, count: usize) -> Batch
        ensures { result ≡ batch_of false start count }
    {
        Batch {
            row: false,
            start,
            count,
        }
    }

    // A row batch: lines of the second pass, scaled where a block is, from the scratch buffer into the output.
    #[inline(always)]
    pub fn rows(start: usize, count: usize) -> Batch
        ensures { result ≡ batch_of true start count }
    {
        Batch {
            row: true,
            start,
            count,
        }
    }
}

// What an opening or a batch gives back: a ticket whether it is accepted or refused, so that this isn't a Result of the two.
#[derive(Drop)]
pub struct Batched {
    pub ticket: Ticket,
    pub outcome: Outcome,
}
