// The coefficients and levels of a block, from text to text. Standard input has these words: w, h, column kind, row kind, step, factor,
// threshold, dead zone, and then the residuals, row by row.
#![tactic(auto)]

mod decimal;
mod input;
mod output;
mod scan;

use answer::{Outcome, Refusal};
use input::Input;
use output::Refused;
use sizes::Size;
use std::io;

// The coefficients of a block.
fn transform(input: &Input, coefficients: &mut [i32; 1024]) -> Result<Size, Refusal> {
    let size = Size::new(input.w, input.h)?;
    let mut scratch = [0i32; 1024];
    block::block(
        size.w,
        size.h,
        input.column_kind,
        input.row_kind,
        &input.residuals[..input.count],
        &mut scratch,
        coefficients,
    )?;
    Ok(size)
}

// The levels of a block's coefficients, which stand column by column.
fn quantize(
    input: &Input,
    size: Size,
    coefficients: &[i32; 1024],
    levels: &mut [f32; 1024],
) -> Outcome {
    let mut places = [0u16; 1024];
    scan::fill(size, &mut places);
    let mut magnitudes = [0.0f32; 1024];
    quant::quantize_to_levels(
        size.w,
        input.step,
        input.settings,
        coefficients,
        &places[..size.places()],
        levels,
        &mut magnitudes,
    )
}

// Both tables, or the refusal.
fn print_tables(rt: &impl Print, input: &Input) -> io::Result<()> {
    let mut coefficients = [0i32; 1024];
    let size = match transform(input, &mut coefficients) {
        Ok(size) => size,
        Err(why) => return println!(rt; "{}", Refused { why }),
    };
    println!(rt; "coefficients")?;
    output::print_rows(rt, size, &coefficients)?;
    println!(rt; "levels")?;
    let mut levels = [0.0f32; 1024];
    match quantize(input, size, &coefficients, &mut levels) {
        Ok(_) => output::print_rows(rt, size, &scan::by_rows(size, &levels)),
        Err(why) => println!(rt; "{}", Refused { why }),
    }
}

// Reads the words and does the work, or says which word is wrong.
fn run(rt: &impl Print, text: &[u8]) -> io::Result<()> {
    match input::read(text) {
        Ok(input) => print_tables(rt, &input),
        Err(wrong) => println!(rt; "{wrong}"),
    }
}

fn main(rt: HostRuntime) -> io::Result<()> {
    let mut text = [0u8; 65536];
    let n = text::read_full(&mut rt.reader(), &mut text)?;
    if n == 65536 {
        return println!(rt; "the input should be shorter than 65536 bytes");
    }
    run(&rt, &text[..n])
}
