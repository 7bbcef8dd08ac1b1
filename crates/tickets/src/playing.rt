// A lent list of batches, played.
ghost use Rattle.std.specs.Prelude.{◌≡◌, ◌≤◌, length, IfOk};
ghost use Rattle.answer.specs.Answer.{told};
ghost use Rattle.tickets.specs.Run.{state_at, step};
ghost use Rattle.tickets.specs.Play.{are_kinds, play_answer, step_given, play_given, played, AsSettled};

use super::running::run;
use super::{Batch, Batched, Ticket};
use answer::{Outcome, Refusal};

// A batch of a block's own buffers.
#[tactic(auto, unfolding(crate::specs::Run::step))]
fn any_batch(
    ticket: Ticket,
    b: Batch,
    residuals: &[i32],
    scratch: &mut [i32],
    output: &mut [i32],
) -> Batched
    ensures { step_given result scratch.new output.new ≡ step residuals.now (state_at ticket scratch.old output.old) b }
{
    if b.row {
        run(ticket, b, scratch, output)
    } else {
        run(ticket, b, residuals, scratch)
    }
}

// Whether each kind of batch is 0 or 1.
fn are_kinds(kinds: &[u32]) -> bool
    ensures { result ≡ are_kinds kinds.now }
{
    kinds.iter().all(|kind| *kind <= 1)
}

// The outcome of a lent list: the lowest number that applies, or how many batches it has.
#[tactic(auto, unfolding(crate::specs::Play::play_answer, answer::specs::Answer::lowest))]
fn play_outcome(kinds: &[u32], starts: usize, counts: usize, room: usize) -> Outcome
    ensures answer { told result ≡ play_answer kinds.now starts counts room }
    ensures within { IfOk result (λ n. (n ≡ length kinds.now) × (n ≤ starts) × (n ≤ counts) × (n ≤ room)) }
{
    if !are_kinds(kinds) {
        return Err(Refusal::BadKind);
    }
    let n = kinds.len();
    if (starts < n) | ((counts < n) | (room < n)) {
        return Err(Refusal::ShortBuffer);
    }
    Ok(n)
}

// Plays a lent list of batches on a ticket: batch i has counts[i] lines from starts[i] on, columns where kinds[i] is 0 and rows where it is
// 1. Each answer goes to `answered` as one signed number, and the whole list answers how many batches it has.
// Batches are lent as numbers, not as a slice of Batch: what is promised says which numbers are refused.
pub fn play(
    ticket: Ticket,
    residuals: &[i32],
    scratch: &mut [i32],
    output: &mut [i32],
    kinds: &[u32],
    starts: &[usize],
    counts: &[usize],
    answered: &mut [i64],
) -> Batched
    ensures answered_after { play_given result scratch.new output.new answered.new
        ≡ played residuals.now (state_at ticket scratch.old output.old) kinds.now starts.now counts.now answered.old }
    ensures as_settled { AsSettled ticket residuals.now scratch.old output.old kinds.now starts.now counts.now answered.old
        (play_given result scratch.new output.new answered.new) }
{
    let n = match play_outcome(kinds, starts.len(), counts.len(), answered.len()) {
        Ok(n) => n,
        Err(why) => {
            return Batched {
                ticket,
                outcome: Err(why),
            };
        }
    };
    let mut current = ticket;
    for i in 0..n {
        let b = Batch {
            row: kinds[i] == 1,
            start: starts[i],
            count: counts[i],
        };
        let done = any_batch(current, b, residuals, scratch, output);
        answered[i] = answer::signed(done.outcome);
        current = done.ticket;
    }
    Batched {
        ticket: current,
        outcome: Ok(n),
    }
}
