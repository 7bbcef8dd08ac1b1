// The functions of the C interface that take a ticket: one that the caller keeps and lends.
ghost use Rattle.std.specs.Prelude.{true, false, length};
ghost use Rattle.tickets.specs.Batch.{batch_of, batch};
ghost use Rattle.mizdrek.specs.Ticket.{SignedBatch, SignedOpening};

use tickets::{Batch, Ticket};

// A batch's answer as one signed number.
fn run(ticket: &mut Ticket, b: Batch, source: &[i32], target: &mut [i32]) -> i64
    ensures { SignedBatch (batch ticket.old b source.now target.old) result ticket.new target.new }
{
    answer::signed(dispatch::run(ticket, b, source, target))
}

// An opening into the caller's ticket, which stays as it was where the opening is refused.
#[unsafe(no_mangle)]
#[tactic(auto, using(crate::proofs::Opening::open_small))]
pub extern "C" fn mizdrek_open(
    w: usize,
    h: usize,
    column_kind: u32,
    row_kind: u32,
    residuals: &[i32],
    scratch: &[i32],
    output: &[i32],
    ticket: &mut Ticket,
) -> i64
    ensures { SignedOpening w h column_kind row_kind residuals.now (length scratch.now) (length output.now)
        ticket.old result ticket.new }
{
    let opened = tickets::open(w, h, column_kind, row_kind, residuals, scratch, output);
    if opened.outcome.is_ok() {
        *ticket = opened.ticket;
    }
    answer::signed(opened.outcome)
}

#[unsafe(no_mangle)]
pub extern "C" fn mizdrek_column_batch(
    ticket: &mut Ticket,
    residuals: &[i32],
    scratch: &mut [i32],
    start: usize,
    count: usize,
) -> i64
    ensures { SignedBatch (batch ticket.old (batch_of false start count) residuals.now scratch.old)
        result ticket.new scratch.new }
{
    run(ticket, Batch::columns(start, count), residuals, scratch)
}

#[unsafe(no_mangle)]
pub extern "C" fn mizdrek_row_batch(
    ticket: &mut Ticket,
    scratch: &[i32],
    output: &mut [i32],
    start: usize,
    count: usize,
) -> i64
    ensures { SignedBatch (batch ticket.old (batch_of true start count) scratch.now output.old)
        result ticket.new output.new }
{
    run(ticket, Batch::rows(start, count), scratch, output)
}
