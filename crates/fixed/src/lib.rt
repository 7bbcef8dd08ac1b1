// Fixed-point arithmetic on signed 32 bits: sums and products that wrap, the rounding rule and the scaling rule.
// Each wrapping function folds to one machine instruction.
#![tactic(auto)]

mod limit;
mod rounding;

ghost use Rattle.std.specs.Prelude.{◌≡◌, ◌+ℤ◌, ◌-ℤ◌, ◌*ℤ◌};
ghost use Rattle.laws.specs.Integer.{wrap32};
ghost use Rattle.fixed.specs.Fixed.{scaled};

pub use limit::{all_within, is_within};
pub use rounding::{Rounding, Shift};

// The low 32 bits of x, read as signed.
#[inline(always)]
fn wrap(x: i64) -> i32
    ensures { result ≡ wrap32 x }
{
    ((x << 32) >> 32) as i32
}

// Document 01 names these three: "wrapping add and subtract, with a program-made wrapping product". Their clauses are over the integers.
#[inline(always)]
pub fn wrapping_add(a: i32, b: i32) -> i32
    ensures { result ≡ wrap32 (a +ℤ b) }
{
    a.wrapping_add(b)
}

#[inline(always)]
pub fn wrapping_sub(a: i32, b: i32) -> i32
    ensures { result ≡ wrap32 (a -ℤ b) }
{
    a.wrapping_sub(b)
}

#[inline(always)]
pub fn wrapping_mul(a: i32, b: i32) -> i32
    ensures { result ≡ wrap32 (a *ℤ b) }
{
    wrap(i64::from(a) * i64::from(b))
}

// v times 5793 / 4096, which is close to the square root of 2, rounded. Worked at 64 bits.
#[inline(always)]
pub fn rect_scale(v: i32) -> i32
    ensures { result ≡ wrap32 (scaled v) }
{
    wrap((i64::from(v) * 5793 + 2048) >> 12)
}
