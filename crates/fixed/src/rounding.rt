// The shift of a pass, and the rounding rule: a sum that begins at a half, and a shift.
ghost use Rattle.std.specs.Prelude.{◌≡◌, true, false, pos, MatchResult};
ghost use Rattle.answer.specs.declared.Refusal.TheVariants.{BadSize};
ghost use Rattle.fixed.specs.Fixed.{is_shift, floor_shift};

use answer::Refusal;

#[derive(Clone, Copy)]
pub struct Shift {
    pub bits: u32,
    ghost in_range: { is_shift (pos bits) ≡ true },
}

impl Shift {
    // Number 1's rule.
    #[inline(always)]
    #[tactic(auto, unfolding(crate::specs::Fixed::is_shift))]
    pub fn new(bits: i32) -> Result<Shift, Refusal>
        ensures { MatchResult result (λ s. (pos s.bits ≡ bits) × (is_shift bits ≡ true)) (λ why. (why ≡ BadSize) × (is_shift bits ≡ false)) }
    {
        if (0 <= bits) & (bits <= 15) {
            return Ok(Shift { bits: bits as u32 });
        }
        Err(Refusal::BadSize)
    }

    // What a pass builds before its loops: the half of the unit that the shift drops. A shift of 0 drops none, and its half is 0.
    #[tactic(auto, using(crate::proofs::Shifted::shift_small))]
    #[inline(always)]
    pub fn rounding(self) -> Rounding
        ensures { result.shift.bits ≡ self.bits }
    {
        Rounding {
            half: (1 << self.bits) >> 1,
            shift: self,
        }
    }
}

// A shift with its half, built once.
#[derive(Clone, Copy)]
pub struct Rounding {
    pub half: i32,
    pub shift: Shift,
    ghost built: { half ≡ Rattle.fixed.specs.Fixed.half shift.bits },
}

impl Rounding {
    // What is left to do of a sum that began at the half: it is divided by 2 ^ bits, rounded down.
    #[tactic(auto, using(crate::proofs::Shifted::shift_small))]
    #[inline(always)]
    pub fn finish(self, sum: i32) -> i32
        ensures { result ≡ floor_shift self.shift.bits sum }
    {
        sum >> self.shift.bits
    }
}
