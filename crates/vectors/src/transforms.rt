// Records of kinds 1 to 6: kernels, shifts, the DC scale, passes, blocks and the WHT.
ghost use Rattle.std.specs.Prelude.{◌≤◌, length};

use super::record;
use answer::Outcome;
use sizes::Size;
use text::Number;

// An element of a buffer; 0 past its end.
fn at(buffer: &[i32], place: usize) -> i32 {
    if place < buffer.len() {
        buffer[place]
    } else {
        0
    }
}

// 1 at every place n + 1 apart: on the diagonal of n × n numbers.
fn fill_diagonal(n: usize, buffer: &mut [i32])
    requires { n ≤ 1024 }
{
    for row in buffer.chunks_mut(n + 1) {
        if let Some(first) = row.first_mut() {
            *first = 1;
        }
    }
}

// A kernel shows in a pass at shift 0: of line k sample k alone is 1.
pub fn kernel(numbers: &[Number]) -> bool {
    let side = record::count(numbers, 1);
    let mut src = [0i32; 1024];
    let mut dst = [0i32; 1024];
    fill_diagonal(side, &mut src);
    match passes::pass(side, record::unsigned(numbers, 0), 0, side, &src, &mut dst) {
        Ok(n) => is_turned(numbers, side, n, &dst),
        Err(_) => false,
    }
}

// Place i of a table of n columns, row by row, is this place of it column by column, where it has as many rows.
fn turned(i: usize, n: usize) -> usize
    requires { (i ≤ 1024) × (1 ≤ n) × (n ≤ 1024) }
{
    i % n * n + i / n
}

// Whether n numbers are a kernel's, sample after sample, where the record has them frequency after frequency.
fn is_turned(numbers: &[Number], side: usize, n: usize, got: &[i32]) -> bool
    requires { side ≤ 1024 }
{
    if side == 0 {
        return false;
    }
    if n > 1024 {
        return false;
    }
    if numbers.len() != 2 + n {
        return false;
    }
    for i in 0..n {
        if at(got, turned(i, side)) != record::signed(numbers, 2 + i) {
            return false;
        }
    }
    true
}

pub fn shifts(numbers: &[Number]) -> bool {
    match Size::new(record::count(numbers, 0), record::count(numbers, 1)) {
        Ok(size) => {
            let shifts = size.shifts();
            (numbers.len() == 4)
                & (shifts.first.bits == record::unsigned(numbers, 2))
                & (shifts.second.bits == record::unsigned(numbers, 3))
        }
        Err(_) => false,
    }
}

pub fn scale(numbers: &[Number]) -> bool {
    let outcome = sizes::dc_tx_scale(record::count(numbers, 0), record::count(numbers, 1));
    (numbers.len() == 3) & record::is_answer(numbers, 2, outcome)
}

// The call of a record, on buffers of its lengths.
fn call_pass(numbers: &[Number], src: &[i32], dst: &mut [i32]) -> Outcome
    requires { (1024 ≤ length src.now) × (1024 ≤ length dst.old) }
{
    let n = record::count(numbers, 4);
    let room = record::count(numbers, 5 + n);
    passes::pass(
        record::count(numbers, 0),
        record::unsigned(numbers, 1),
        record::signed(numbers, 2),
        record::count(numbers, 3),
        &src[..n],
        &mut dst[..room],
    )
}

pub fn pass(numbers: &[Number]) -> bool {
    let mut src = [0i32; 1024];
    let mut dst = [0i32; 1024];
    record::load(numbers, 5, &mut src);
    let outcome = call_pass(numbers, &src, &mut dst);
    let answer = 6 + record::count(numbers, 4);
    let written = record::answered(numbers, answer);
    (numbers.len() == answer + 1 + written)
        & record::is_answer(numbers, answer, outcome)
        & record::is_same(numbers, answer + 1, written, &dst)
}

fn call_block(
    numbers: &[Number],
    residuals: &[i32],
    scratch: &mut [i32],
    output: &mut [i32],
) -> Outcome
    requires { (1024 ≤ length residuals.now) × (1024 ≤ length scratch.old) × (1024 ≤ length output.old) }
{
    let n = record::count(numbers, 4);
    let room = record::count(numbers, 5 + n);
    let space = record::count(numbers, 6 + n);
    block::block(
        record::count(numbers, 0),
        record::count(numbers, 1),
        record::unsigned(numbers, 2),
        record::unsigned(numbers, 3),
        &residuals[..n],
        &mut scratch[..room],
        &mut output[..space],
    )
}

pub fn block(numbers: &[Number]) -> bool {
    let mut residuals = [0i32; 1024];
    let mut scratch = [0i32; 1024];
    let mut output = [0i32; 1024];
    record::load(numbers, 5, &mut residuals);
    let outcome = call_block(numbers, &residuals, &mut scratch, &mut output);
    let answer = 7 + record::count(numbers, 4);
    let written = record::answered(numbers, answer);
    (numbers.len() == answer + 1 + 2 * written)
        & record::is_answer(numbers, answer, outcome)
        & record::is_same(numbers, answer + 1, written, &scratch)
        & record::is_same(numbers, answer + 1 + written, written, &output)
}

fn call_wht(numbers: &[Number], residuals: &[i32], output: &mut [i32]) -> Outcome
    requires { (1024 ≤ length residuals.now) × (1024 ≤ length output.old) }
{
    let n = record::count(numbers, 0);
    let room = record::count(numbers, 1 + n);
    wht::fwht4x4(&residuals[..n], &mut output[..room])
}

pub fn wht(numbers: &[Number]) -> bool {
    let mut residuals = [0i32; 1024];
    let mut output = [0i32; 1024];
    record::load(numbers, 1, &mut residuals);
    let outcome = call_wht(numbers, &residuals, &mut output);
    let answer = 2 + record::count(numbers, 0);
    let written = record::answered(numbers, answer);
    (numbers.len() == answer + 1 + written)
        & record::is_answer(numbers, answer, outcome)
        & record::is_same(numbers, answer + 1, written, &output)
}
