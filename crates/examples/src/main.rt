// Document 01's entries under "Frames on the light table" that aren't marked P, run: a line for each. Those marked P stand in the list of
// specs/Examples.antt. And a list of batches, played, a preview beside its batch, two rooms on one plane, and
// the lighter of two trials.
#![tactic(auto)]

use answer::Outcome;
use plane::{Plane, Site};
use quant::Settings;
use std::io;
use tickets::Batch;

// What a call gave back.
fn print_outcome(rt: &impl Print, entry: &str, outcome: Outcome) -> io::Result<()> {
    match outcome {
        Ok(n) => println!(rt; "{entry}: answers {n}"),
        Err(why) => {
            let number = u32::from(why);
            println!(rt; "{entry}: refused {number}")
        }
    }
}

// Numbers on a line.
fn print_numbers(rt: &impl Print, entry: &str, numbers: &[i32]) -> io::Result<()> {
    print!(rt; "{entry}:")?;
    for n in numbers {
        print!(rt; " {n}")?;
    }
    println!(rt;)
}

// "32×32 DCT, all 4095: first 524160. One 4096: number 4."
fn blocks(rt: &impl Print) -> io::Result<()> {
    let mut residuals = [4095i32; 1024];
    let mut scratch = [0i32; 1024];
    let mut output = [0i32; 1024];
    let all = block::block(32, 32, 0, 0, &residuals, &mut scratch, &mut output);
    print_outcome(rt, "32x32 DCT, all 4095", all)?;
    print_numbers(rt, "32x32 DCT, all 4095, first", &output[..1])?;
    residuals[1023] = 4096;
    let one = block::block(32, 32, 0, 0, &residuals, &mut scratch, &mut output);
    print_outcome(rt, "32x32 DCT, one 4096", one)
}

// A scan of one place.
fn at_step(rt: &impl Print, entry: &str, step: u32) -> io::Result<()> {
    let settings = Settings {
        factor: 1.0,
        threshold: 0.5,
        dead_zone: 0.375,
    };
    let mut levels = [0.0f32; 1];
    let mut magnitudes = [0.0f32; 1];
    let outcome = quant::quantize_to_levels(
        4,
        step,
        settings,
        &[9i32; 16],
        &[0u16; 1],
        &mut levels,
        &mut magnitudes,
    );
    print_outcome(rt, entry, outcome)
}

// The first column batch of a block of w × 32.
fn column_batch(
    rt: &impl Print,
    entry: &str,
    w: usize,
    start: usize,
    count: usize,
) -> io::Result<()> {
    let residuals = [1i32; 1024];
    let mut scratch = [0i32; 1024];
    let opened = tickets::open(w, 32, 0, 0, &residuals, &scratch, &[0i32; 1024]);
    let batch = Batch::columns(start, count);
    let batched = tickets::run(opened.ticket, batch, &residuals, &mut scratch);
    print_outcome(rt, entry, batched.outcome)
}

// A list of batches of an 8×8 block of ones: rows before the columns, all columns, three rows, and all rows.
fn list(rt: &impl Print) -> io::Result<()> {
    let residuals = [1i32; 64];
    let mut scratch = [0i32; 64];
    let mut output = [0i32; 64];
    let mut answered = [0i64; 4];
    let opened = tickets::open(8, 8, 0, 0, &residuals, &scratch, &output);
    let played = tickets::play(
        opened.ticket,
        &residuals,
        &mut scratch,
        &mut output,
        &[1u32, 0, 1, 1],
        &[0usize, 0, 0, 0],
        &[8usize, 8, 3, 8],
        &mut answered,
    );
    print_outcome(rt, "8x8, a list of batches", played.outcome)?;
    print!(rt; "8x8, each batch:")?;
    for answer in &answered {
        print!(rt; " {answer}")?;
    }
    let first = output[0];
    println!(rt; "; first {first}")
}

// Columns 4 to 7 of an 8×4 block with one residual of 7, in column 4: the preview, its batch, and a preview buffer that is one number short.
fn preview(rt: &impl Print) -> io::Result<()> {
    let mut residuals = [0i32; 32];
    residuals[4] = 7;
    let mut scratch = [0i32; 32];
    let mut shown = [9i32; 16];
    let opened = tickets::open(8, 4, 0, 0, &residuals, &scratch, &[0i32; 32]);
    let ticket = opened.ticket;
    let batch = Batch::columns(4, 4);
    let looked = previews::preview(ticket, batch, &residuals, &scratch, &mut shown);
    print_outcome(rt, "8x4, a preview of columns 4 to 7", looked)?;
    let batched = tickets::run(ticket, batch, &residuals, &mut scratch);
    print_outcome(rt, "8x4, their batch", batched.outcome)?;
    let seen = [shown[0], shown[1], shown[2], shown[3]];
    print_numbers(rt, "8x4, column 4 in the preview", &seen)?;
    let column = [scratch[16], scratch[17], scratch[18], scratch[19]];
    print_numbers(rt, "8x4, column 4 in scratch", &column)?;
    let mut short = [9i32; 15];
    let refused = previews::preview(ticket, batch, &residuals, &scratch, &mut short);
    print_outcome(rt, "8x4, the preview into 15 numbers", refused)
}

// A room's opening of an 8×8 block of ones, x columns from the left.
fn open_tile(rt: &impl Print, entry: &str, given: Plane, room: u32, x: usize) -> io::Result<Plane> {
    let site = Site {
        room,
        x,
        y: 0,
        w: 8,
        h: 8,
        column_kind: 0,
        row_kind: 0,
    };
    let opened = plane::open_tile(given, site, &[1i32; 64], &[0i32; 64], &[0i32; 128]);
    print_outcome(rt, entry, opened.outcome)?;
    Ok(opened.plane)
}

// A room's 8 columns of tile 1.
fn tile_columns(
    rt: &impl Print,
    entry: &str,
    given: Plane,
    room: u32,
    scratch: &mut [i32],
) -> io::Result<Plane> {
    let batched = plane::tile_columns(given, room, 1, &[1i32; 64], scratch, 0, 8);
    print_outcome(rt, entry, batched.outcome)?;
    Ok(batched.plane)
}

// Two rooms on a plane of 16×8: room 0 has the left half and room 1 the right, as tile 1.
fn planes(rt: &impl Print) -> io::Result<()> {
    let mut scratch = [0i32; 64];
    let mut output = [0i32; 128];
    let made = plane::make_plane(16, 8);
    print_outcome(rt, "a plane of 16x8", made.outcome)?;
    let p1 = open_tile(rt, "room 0, from column 0", made.plane, 0, 0)?;
    let p2 = open_tile(rt, "room 1, from column 4", p1, 1, 4)?;
    let p3 = open_tile(rt, "room 1, from column 8", p2, 1, 8)?;
    let p4 = tile_columns(rt, "room 0, columns of tile 1", p3, 0, &mut scratch)?;
    let p5 = tile_columns(rt, "room 1, columns of tile 1", p4, 1, &mut scratch)?;
    let rows = plane::tile_rows(p5, 1, 1, &scratch, &mut output, 0, 8);
    print_outcome(rt, "room 1, rows of tile 1", rows.outcome)?;
    print_numbers(
        rt,
        "columns 7 and 8 of the plane's first row",
        &output[7..9],
    )?;
    let closed = plane::close_tile(rows.plane, 1, 1);
    print_outcome(rt, "room 1, closing tile 1", closed.outcome)?;
    tile_columns(
        rt,
        "room 1, columns of tile 1 again",
        closed.plane,
        1,
        &mut scratch,
    )?;
    Ok(())
}

// The lighter of two trials: why it is refused, or 0; how many levels are given, and the first of them.
fn trials<'a>(
    rt: &impl Print,
    entry: &str,
    first: &'a [i32],
    second: &'a [i32],
    count: usize,
) -> io::Result<()> {
    let number = choice::refused_by(first, second, count);
    let part = choice::lighter(first, second, count);
    let given = part.len();
    print!(rt; "{entry}: refused by {number}; levels given: {given}")?;
    if let Some(level) = part.first() {
        print!(rt; ", the first {level}")?;
    }
    println!(rt;)
}

// Choices between two trials: by the sums, on a tie, of no level, and of more levels than there are.
fn choices(rt: &impl Print) -> io::Result<()> {
    trials(
        rt,
        "trials 3 -4 and -2 1, 2 levels",
        &[3i32, -4],
        &[-2i32, 1],
        2,
    )?;
    trials(
        rt,
        "trials 3 -4 and 0 7, 2 levels",
        &[3i32, -4],
        &[0i32, 7],
        2,
    )?;
    trials(
        rt,
        "trials 3 -4 and -2 1, no level",
        &[3i32, -4],
        &[-2i32, 1],
        0,
    )?;
    trials(
        rt,
        "trials 3 -4 and -2 1, 3 levels",
        &[3i32, -4],
        &[-2i32, 1],
        3,
    )
}

fn main(rt: HostRuntime) -> io::Result<()> {
    blocks(&rt)?;
    // "Step 0: number 7. Step 1: accepted."
    at_step(&rt, "step 0", 0)?;
    at_step(&rt, "step 1", 1)?;
    // "Line count 4: one four-line batch, no eight. Start 28 with 8 of 32 lines: number 5; with 4: accepted."
    column_batch(&rt, "4 lines, a batch of 4 from 0", 4, 0, 4)?;
    column_batch(&rt, "4 lines, a batch of 4 from 4", 4, 4, 4)?;
    column_batch(&rt, "4 lines, a batch of 8 from 0", 4, 0, 8)?;
    column_batch(&rt, "32 lines, a batch of 8 from 28", 32, 28, 8)?;
    column_batch(&rt, "32 lines, a batch of 4 from 28", 32, 28, 4)?;
    list(&rt)?;
    preview(&rt)?;
    planes(&rt)?;
    choices(&rt)
}
