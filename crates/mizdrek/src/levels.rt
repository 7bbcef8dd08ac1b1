// Steps, one place, the levels of a scan, and the lighter of two trials.
ghost use Rattle.std.specs.Prelude.{◌≡◌, length};
ghost use Rattle.answer.specs.Answer.{signed_of};
ghost use Rattle.choice.specs.Choice.{choice_answer};
ghost use Rattle.quant.specs.Place.{one_answer};
ghost use Rattle.quant.specs.Scan.{scan_answer, levels_after, magnitudes_after};
ghost use Rattle.quant.specs.Step.{step_of};
ghost use Rattle.mizdrek.specs.Levels.{settings_of, signed_one, level_given, magnitude_given};

use answer::Outcome;
use quant::{Place, Settings};

#[unsafe(no_mangle)]
pub extern "C" fn mizdrek_qstep(index: u32) -> u32
    ensures { result ≡ step_of index }
{
    quant::qstep(index)
}

// 0 where the coefficient is dropped, with level +0.0, and 1 where it is kept; a refused call writes neither number.
#[unsafe(no_mangle)]
pub extern "C" fn mizdrek_quantize_one(
    factor: f32,
    threshold: f32,
    dead_zone: f32,
    step: u32,
    coefficient: i32,
    level: &mut f32,
    magnitude: &mut f32,
) -> i64
    ensures value { result ≡ signed_one (one_answer (settings_of factor threshold dead_zone) step coefficient) }
    ensures level_after { level.new ≡ level_given (one_answer (settings_of factor threshold dead_zone) step coefficient) level.old }
    ensures magnitude_after { magnitude.new ≡ magnitude_given (one_answer (settings_of factor threshold dead_zone) step coefficient) magnitude.old }
{
    let settings = Settings {
        factor,
        threshold,
        dead_zone,
    };
    let quantized = quant::quantize_one(settings, step, coefficient);
    match quantized {
        Err(why) => answer::signed(Err(why)),
        Ok(Place::Dropped(m)) => {
            *level = 0.0;
            *magnitude = m;
            0
        }
        Ok(Place::Kept(l, m)) => {
            *level = l;
            *magnitude = m;
            1
        }
    }
}

#[unsafe(no_mangle)]
pub extern "C" fn mizdrek_quantize_to_levels(
    width: usize,
    step: u32,
    factor: f32,
    threshold: f32,
    dead_zone: f32,
    coefficients: &[i32],
    scan: &[u16],
    levels: &mut [f32],
    magnitudes: &mut [f32],
) -> i64
    ensures value { result ≡ signed_of (scan_answer width step (settings_of factor threshold dead_zone) coefficients.now scan.now (length levels.old) (length magnitudes.old)) }
    ensures levels_after { levels.new ≡ levels_after width step (settings_of factor threshold dead_zone) coefficients.now scan.now levels.old magnitudes.old }
    ensures magnitudes_after { magnitudes.new ≡ magnitudes_after width step (settings_of factor threshold dead_zone) coefficients.now scan.now levels.old magnitudes.old }
{
    let settings = Settings {
        factor,
        threshold,
        dead_zone,
    };
    let outcome = quant::quantize_to_levels(
        width,
        step,
        settings,
        coefficients,
        scan,
        levels,
        magnitudes,
    );
    answer::signed(outcome)
}

// 0 where the first buffer is the lighter, as on a tie, and 1 where the second is: a reference can't be handed to C.
#[unsafe(no_mangle)]
pub extern "C" fn mizdrek_lighter(first: &[i32], second: &[i32], count: usize) -> i64
    ensures { result ≡ signed_of (choice_answer first.now second.now count) }
{
    answer::signed(choice::which(first, second, count))
}
