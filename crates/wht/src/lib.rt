// The forward 4×4 WHT.
#![tactic(auto)]

ghost use Rattle.std.specs.Prelude.{◌≡◌, true, ◌≤◌, ◌^◌, nat_abs, length};
ghost use Rattle.answer.specs.Answer.{told};
ghost use Rattle.laws.specs.Store.{laid};
ghost use Rattle.residual.specs.Residual.{residuals_ok};
ghost use Rattle.wht.specs.Wht.{wht_four, wht_of, wht_answer, wht_after};
ghost use Rattle.wht.specs.Turned.{Sized, turned};

use answer::{Outcome, Refusal};

// The WHT of four numbers.
fn line(p: i32, q: i32, r: i32, s: i32) -> [i32; 4]
    requires { (nat_abs p ≤ 2 ^ 20) × (nat_abs q ≤ 2 ^ 20) × (nat_abs r ≤ 2 ^ 20) × (nat_abs s ≤ 2 ^ 20) }
    ensures { result ≡ wht_four p q r s }
{
    let t = p + q + r;
    let e = (t - s) >> 1;
    [t - e, e - r, s - r + e - q, e - q]
}

// The WHT of each column of src, laid down as a row of dst.
fn pass(src: &[i32], dst: &mut [i32])
    requires in_bounds { (16 ≤ length src.now) × (16 ≤ length dst.old) }
    requires sized { Sized (2 ^ 20) src.now }
    ensures { dst.new ≡ laid dst.old 0 16 (turned src.now) }
{
    for j in 0..4 {
        let y = line(src[j], src[j + 4], src[j + 8], src[j + 12]);
        for f in 0..4 {
            let at = j * 4 + f;
            dst[at] = y[f];
        }
    }
}

// Columns first, then rows.
fn run(residuals: &[i32], output: &mut [i32])
    requires { (16 ≤ length residuals.now) × (16 ≤ length output.old) × (residuals_ok 16 residuals.now ≡ true) }
    ensures { output.new ≡ laid output.old 0 16 (wht_of residuals.now) }
{
    let mut turned = [0i32; 16];
    pass(residuals, &mut turned);
    pass(&turned, output);
}

// Whether the call is refused, and its answer.
#[tactic(auto, unfolding(crate::specs::Wht::wht_answer, answer::specs::Answer::lowest))]
fn admit(residuals: &[i32], room: usize) -> Outcome
    ensures { told result ≡ wht_answer residuals.now room }
{
    if (residuals.len() < 16) | (room < 16) {
        return Err(Refusal::ShortBuffer);
    }
    if !residual::residuals_ok(&residuals[..16]) {
        return Err(Refusal::ResidualRange);
    }
    Ok(16)
}

// The WHT of the first 16 residuals, a 4×4 block, in the first 16 numbers of output.
pub fn fwht4x4(residuals: &[i32], output: &mut [i32]) -> Outcome
    ensures result_value { told result ≡ wht_answer residuals.now (length output.old) }
    ensures output_after { output.new ≡ wht_after residuals.now output.old }
{
    let n = admit(residuals, output.len())?;
    run(residuals, output);
    Ok(n)
}
