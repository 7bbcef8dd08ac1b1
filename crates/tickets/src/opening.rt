// Opening a block: its ticket.
ghost use Rattle.std.specs.Prelude.{◌≡◌, length};
ghost use Rattle.tickets.specs.Open.{new_ticket, Opening};

use super::{Batched, Ticket};

// A ticket with no marks for a block of these residuals, with these work buffers; a ticket of zeros where that is refused.
pub fn open(
    w: usize,
    h: usize,
    column_kind: u32,
    row_kind: u32,
    residuals: &[i32],
    scratch: &[i32],
    output: &[i32],
) -> Batched
    ensures { Opening w h column_kind row_kind residuals.now (length scratch.now) (length output.now) result }
{
    match block::admit(
        w,
        h,
        column_kind,
        row_kind,
        residuals,
        scratch.len(),
        output.len(),
    ) {
        Ok(_) => Batched {
            ticket: new_ticket(w, h, column_kind, row_kind),
            outcome: Ok(0),
        },
        Err(why) => Batched {
            ticket: new_ticket(0, 0, 0, 0),
            outcome: Err(why),
        },
    }
}

// A ticket with no marks.
pub fn new_ticket(w: usize, h: usize, column_kind: u32, row_kind: u32) -> Ticket
    ensures { result ≡ new_ticket w h column_kind row_kind }
{
    Ticket {
        w,
        h,
        column_kind,
        row_kind,
        columns: 0,
        rows: 0,
    }
}
