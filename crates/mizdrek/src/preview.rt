// The functions of the C interface that look at a batch's lines, one for columns and one for rows: the ticket is lent to be read.
ghost use Rattle.std.specs.Prelude.{true, false};
ghost use Rattle.tickets.specs.Batch.{batch_of};
ghost use Rattle.previews.specs.Preview.{preview_of};
ghost use Rattle.mizdrek.specs.Preview.{SignedPreview};

use tickets::{Batch, Ticket};

// The preview's answer as one signed number.
fn shown(ticket: Ticket, b: Batch, source: &[i32], target: &[i32], preview: &mut [i32]) -> i64
    ensures { SignedPreview (preview_of ticket b source.now target.now preview.old) result preview.new }
{
    answer::signed(previews::preview(ticket, b, source, target, preview))
}

#[unsafe(no_mangle)]
pub extern "C" fn mizdrek_preview_columns(
    ticket: &Ticket,
    residuals: &[i32],
    scratch: &[i32],
    preview: &mut [i32],
    start: usize,
    count: usize,
) -> i64
    ensures { SignedPreview (preview_of ticket.now (batch_of false start count) residuals.now scratch.now preview.old) result preview.new }
{
    let b = Batch::columns(start, count);
    shown(*ticket, b, residuals, scratch, preview)
}

#[unsafe(no_mangle)]
pub extern "C" fn mizdrek_preview_rows(
    ticket: &Ticket,
    scratch: &[i32],
    output: &[i32],
    preview: &mut [i32],
    start: usize,
    count: usize,
) -> i64
    ensures { SignedPreview (preview_of ticket.now (batch_of true start count) scratch.now output.now preview.old) result preview.new }
{
    let b = Batch::rows(start, count);
    shown(*ticket, b, scratch, output, preview)
}
