// The level and the magnitude of a coefficient.
ghost use Rattle.std.specs.Prelude.{◌≡◌, true, false, T, pos, length, get_or, MatchResult};
ghost use Rattle.std.specs.Float.Ieee.Scale.{finite};
ghost use Rattle.answer.specs.declared.Refusal.TheVariants.{BadSetting};
ghost use Rattle.laws.specs.Table.{every};
ghost use Rattle.quant.specs.Settings.{settings_ok, coefficient_ok};
ghost use Rattle.quant.specs.Level.{IsScale, level_by, magnitude_by};
ghost use Rattle.quant.specs.Place.{said, one_answer};

use super::{Place, Settings, float};
use answer::Refusal;

// Whether each setting and the step are in range.
fn settings_ok(settings: Settings, step: u32) -> bool
    ensures { result ≡ settings_ok settings step }
{
    ((1 <= step) & (step <= 1048576))
        & ((0.0009765625 <= settings.factor) & (settings.factor <= 1024.0))
        & ((0.0 <= settings.threshold) & (settings.threshold <= 1048576.0))
        & ((0.0 <= settings.dead_zone) & (settings.dead_zone <= 0.5))
}

// Coefficients lie from -LIMIT to LIMIT.
const LIMIT: u32 = 1048576;

#[tactic(auto, unfolding(crate::specs::Settings::coefficient_ok, fixed::specs::Limit::is_within))]
fn coefficient_ok(coefficient: i32) -> bool
    ensures { result ≡ coefficient_ok coefficient }
{
    fixed::is_within(LIMIT, coefficient)
}

// Whether each coefficient is in range.
#[tactic(auto, unfolding(crate::specs::Settings::coefficient_ok, fixed::specs::Limit::all_within, fixed::specs::Limit::is_within))]
pub(crate) fn coefficients_ok(coefficients: &[i32]) -> bool
    ensures { result ≡ every (length coefficients.now) (λ i. coefficient_ok (get_or coefficients.now i (pos 0))) }
{
    fixed::all_within(LIMIT, coefficients)
}

// What settings and a step come to that are in range, once for all coefficients.
#[derive(Clone, Copy)]
pub(crate) struct Scale {
    pub(crate) inverse: f32,
    pub(crate) threshold: f32,
    pub(crate) bias: f32,
    ghost inverse_finite: { T (finite inverse) },
}

// What is written for a coefficient.
#[derive(Drop)]
pub(crate) struct Written {
    pub(crate) level: f32,
    pub(crate) magnitude: f32,
}

impl Scale {
    // Number 7's rule.
    pub(crate) fn new(settings: Settings, step: u32) -> Result<Scale, Refusal>
        ensures { MatchResult result (λ s. IsScale settings step s.inverse s.threshold s.bias × (settings_ok settings step ≡ true)) (λ why. (why ≡ BadSetting) × (settings_ok settings step ≡ false)) }
    {
        if !settings_ok(settings, step) {
            return Err(Refusal::BadSetting);
        }
        Ok(Scale {
            inverse: settings.factor / (step as f32),
            threshold: settings.threshold,
            bias: settings.dead_zone - 0.5,
        })
    }

    #[inline(always)]
    pub(crate) fn quantize(self, coefficient: i32) -> Written
        requires { coefficient_ok coefficient ≡ true }
        ensures { (result.level ≡ level_by self.inverse self.threshold self.bias coefficient) × (result.magnitude ≡ magnitude_by self.inverse coefficient) }
    {
        let product = coefficient as f32 * self.inverse;
        let magnitude = float::abs(product);
        if magnitude >= self.threshold {
            let whole = float::round_half_up(float::max0(magnitude + self.bias));
            let level = float::sign(product) * whole;
            return Written { level, magnitude };
        }
        Written {
            level: 0.0,
            magnitude,
        }
    }
}

// One place by itself: 7 where a setting is out of range, then 9 where the coefficient is.
#[tactic(auto, unfolding(crate::specs::Place::one_answer, crate::specs::Place::place_of))]
pub fn quantize_one(settings: Settings, step: u32, coefficient: i32) -> Result<Place, Refusal>
    ensures { said result ≡ one_answer settings step coefficient }
{
    let scale = Scale::new(settings, step)?;
    if !coefficient_ok(coefficient) {
        return Err(Refusal::CoefficientRange);
    }
    let written = scale.quantize(coefficient);
    if written.magnitude >= settings.threshold {
        return Ok(Place::Kept(written.level, written.magnitude));
    }
    Ok(Place::Dropped(written.magnitude))
}
