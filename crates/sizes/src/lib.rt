// Sides, their logarithms, and what a block's size settles: the two shifts and the DC scale.
#![tactic(auto)]

ghost use Rattle.std.specs.Prelude.{◌≡◌, true, false, ◌&&◌, ◌+◌, ◌*◌, ◌≤◌, ltb, MatchResult};
ghost use Rattle.answer.specs.Answer.{told};
ghost use Rattle.answer.specs.declared.Refusal.TheVariants.{BadSize};
ghost use Rattle.sizes.specs.Size.{is_side, log_of, dc_tx_scale};
ghost use Rattle.sizes.specs.Shift.{first_shift, second_shift};

use answer::{Outcome, Refusal};
use fixed::Shift;

// Whether n is a side: 4, 8, 16 or 32.
#[tactic(auto, unfolding(crate::specs::Size::is_side))]
#[inline(always)]
pub fn is_side(n: usize) -> bool
    ensures { result ≡ is_side n }
{
    (n == 4) | ((n == 8) | ((n == 16) | (n == 32)))
}

// The logarithm of a side.
#[tactic(auto, unfolding(crate::specs::Size::log_of))]
#[inline(always)]
pub fn log2(n: usize) -> usize
    ensures value { result ≡ log_of n }
    ensures bounds { (2 ≤ result) × (result ≤ 5) }
{
    match n {
        4 => 2,
        8 => 3,
        16 => 4,
        _ => 5,
    }
}

// The sides of a block.
#[derive(Clone, Copy)]
pub struct Size {
    pub w: usize,
    pub h: usize,
    ghost sides: { (is_side w ≡ true) × (is_side h ≡ true) },
}

impl Size {
    // Number 1's rule.
    #[inline(always)]
    pub fn new(w: usize, h: usize) -> Result<Size, Refusal>
        ensures { MatchResult result (λ s. (s.w ≡ w) × (s.h ≡ h)) (λ why. (why ≡ BadSize) × ((is_side w && is_side h) ≡ false)) }
    {
        if !(is_side(w) & is_side(h)) {
            return Err(Refusal::BadSize);
        }
        Ok(Size { w, h })
    }

    // How many places a block has.
    #[tactic(auto, using(crate::proofs::Side::size_small))]
    #[inline(always)]
    pub fn places(self) -> usize
        ensures { (result ≡ self.w * self.h) × (result ≤ 1024) }
    {
        self.w * self.h
    }

    // The sum of the sides' logarithms.
    #[inline(always)]
    pub fn log2(self) -> usize
        ensures value { result ≡ log_of self.w + log_of self.h }
        ensures bounds { (4 ≤ result) × (result ≤ 10) }
    {
        log2(self.w) + log2(self.h)
    }

    // The shifts of a block's two passes.
    #[inline(always)]
    pub fn shifts(self) -> Shifts
        ensures { (result.first.bits ≡ first_shift self.w self.h) × (result.second.bits ≡ second_shift self.w self.h) }
    {
        let place = (log2(self.w) - 2) * 4 + (log2(self.h) - 2);
        Shifts {
            first: Shift { bits: FIRST[place] },
            second: Shift {
                bits: SECOND[place],
            },
        }
    }
}

// The shifts of a block's two passes: columns first, rows second.
#[derive(Clone, Copy)]
pub struct Shifts {
    pub first: Shift,
    pub second: Shift,
}

// By the logarithms of w and h, each less 2: h runs within w.
const FIRST: [u32; 16] = [1, 1, 1, 1, 1, 2, 1, 1, 1, 2, 2, 2, 1, 3, 3, 3];

const SECOND: [u32; 16] = [
    10, 11, 11, 12, 11, 10, 12, 12, 11, 11, 11, 13, 12, 10, 12, 12,
];

// The exponent of the scale that a decoder applies to a block's coefficients.
#[tactic(auto, unfolding(crate::specs::Size::dc_tx_scale, crate::specs::Size::scale_of, answer::specs::Answer::lowest))]
pub fn dc_tx_scale(w: usize, h: usize) -> Outcome
    ensures { told result ≡ dc_tx_scale w h }
{
    let s = Size::new(w, h)?.log2();
    if s <= 8 {
        return Ok(0);
    }
    Ok((s - 7) / 2)
}

// Whether count lines, or columns of a plane, from start on end past the last of this many.
pub fn ends_past(lines: usize, start: usize, count: usize) -> bool
    ensures { result ≡ ltb lines (start + count) }
{
    if lines < count {
        return true;
    }
    lines - count < start
}
