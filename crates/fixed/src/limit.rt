// Whether numbers lie from -limit to limit.
ghost use Rattle.std.specs.Prelude.{◌≡◌, length};
ghost use Rattle.fixed.specs.Limit.{is_within, all_within};

#[inline(always)]
#[tactic(auto, unfolding(crate::specs::Limit::is_within))]
pub fn is_within(limit: u32, x: i32) -> bool
    ensures { result ≡ is_within limit x }
{
    let most = i64::from(limit);
    let x = i64::from(x);
    (-most <= x) & (x <= most)
}

// Whether each number does. None of them ends the loop early, so that it works on several at a time.
#[inline(always)]
#[tactic(auto, unfolding(crate::specs::Limit::all_within))]
pub fn all_within(limit: u32, numbers: &[i32]) -> bool
    ensures { result ≡ all_within limit (length numbers.now) numbers.now }
{
    let mut ok = true;
    for x in numbers {
        ok &= is_within(limit, *x);
    }
    ok
}
