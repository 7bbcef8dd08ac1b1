// The batches of `tickets` on one job ticket that is lent and marked where it stands.
#![tactic(auto)]

ghost use Rattle.dispatch.specs.Lent.{LentBatch};

use answer::Outcome;
use tickets::{Batch, Ticket};

// A batch: source is the residuals and target the scratch buffer for columns, the scratch buffer and the output for rows. Refused, it
// leaves the ticket as given.
pub fn run(ticket: &mut Ticket, b: Batch, source: &[i32], target: &mut [i32]) -> Outcome
    ensures { LentBatch ticket.old b source.now target.old result ticket.new target.new }
{
    let done = tickets::run(*ticket, b, source, target);
    *ticket = done.ticket;
    done.outcome
}
