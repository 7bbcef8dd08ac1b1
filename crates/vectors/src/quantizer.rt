// Records of kinds 7 to 9: steps, levels and single places.
ghost use Rattle.std.specs.Prelude.{◌≤◌, length};

use super::record::{self, Entry};
use answer::Outcome;
use quant::{Place, Settings};
use text::Number;

pub fn step(numbers: &[Number]) -> bool {
    (numbers.len() == 2)
        & (quant::qstep(record::unsigned(numbers, 0)) == record::unsigned(numbers, 1))
}

// Factor, threshold and dead zone, from a place on.
fn settings(numbers: &[Number], at: usize) -> Settings
    requires { at ≤ 4096 }
{
    Settings {
        factor: f32::of(numbers, at),
        threshold: f32::of(numbers, at + 1),
        dead_zone: f32::of(numbers, at + 2),
    }
}

// Where a record has its answer: behind two lists and two lengths.
fn answer_place(numbers: &[Number]) -> usize
    ensures { result ≤ 2057 }
{
    let n = record::count(numbers, 5);
    9 + n + record::count(numbers, 6 + n)
}

// The call of a record, on buffers of its lengths.
fn call_levels(
    numbers: &[Number],
    coefficients: &[i32],
    scan: &[u16],
    levels: &mut [f32],
    magnitudes: &mut [f32],
) -> Outcome
    requires { (1024 ≤ length coefficients.now) × (1024 ≤ length scan.now) × (1024 ≤ length levels.old) × (1024 ≤ length magnitudes.old) }
{
    let n = record::count(numbers, 5);
    let m = record::count(numbers, 6 + n);
    let room = record::count(numbers, 7 + n + m);
    let space = record::count(numbers, 8 + n + m);
    quant::quantize_to_levels(
        record::count(numbers, 0),
        record::unsigned(numbers, 1),
        settings(numbers, 2),
        &coefficients[..n],
        &scan[..m],
        &mut levels[..room],
        &mut magnitudes[..space],
    )
}

pub fn levels(numbers: &[Number]) -> bool {
    let mut coefficients = [0i32; 1024];
    let mut scan = [0u16; 1024];
    let mut levels = [0.0f32; 1024];
    let mut magnitudes = [0.0f32; 1024];
    record::load(numbers, 6, &mut coefficients);
    record::load(numbers, 7 + record::count(numbers, 5), &mut scan);
    let outcome = call_levels(numbers, &coefficients, &scan, &mut levels, &mut magnitudes);
    let answer = answer_place(numbers);
    let written = record::answered(numbers, answer);
    (numbers.len() == answer + 1 + 2 * written)
        & record::is_answer(numbers, answer, outcome)
        & record::is_same(numbers, answer + 1, written, &levels)
        & record::is_same(numbers, answer + 1 + written, written, &magnitudes)
}

// Whether a place is kept (1) or dropped (0) with these numbers; a dropped place has level +0.0.
fn is_place(numbers: &[Number], kept: u64, level: f32, magnitude: f32) -> bool {
    (numbers.len() == 8)
        & (record::size(numbers, 5) == kept)
        & level.is(numbers, 6)
        & magnitude.is(numbers, 7)
}

pub fn place(numbers: &[Number]) -> bool {
    let step = record::unsigned(numbers, 0);
    match quant::quantize_one(settings(numbers, 1), step, record::signed(numbers, 4)) {
        Err(_) => false,
        Ok(Place::Dropped(magnitude)) => is_place(numbers, 0, 0.0, magnitude),
        Ok(Place::Kept(level, magnitude)) => is_place(numbers, 1, level, magnitude),
    }
}
