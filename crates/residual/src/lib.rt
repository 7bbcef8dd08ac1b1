// The residual limit.
#![tactic(auto)]

ghost use Rattle.std.specs.Prelude.{◌≡◌, length};
ghost use Rattle.residual.specs.Residual.{residuals_ok};

// Whether each residual lies from -4095 to 4095.
#[tactic(auto, unfolding(crate::specs::Residual::residuals_ok))]
pub fn residuals_ok(residuals: &[i32]) -> bool
    ensures { result ≡ residuals_ok (length residuals.now) residuals.now }
{
    fixed::all_within(4095, residuals)
}
