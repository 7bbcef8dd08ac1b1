// The transform kernels, as tables. A pass widens what it reads of one once, before its loops.
#![tactic(auto)]

mod adst_tables;
mod dct_tables;

ghost use Rattle.std.specs.Prelude.{◌≡◌, true, false, MatchResult};
ghost use Rattle.answer.specs.declared.Refusal.TheVariants.{BadKind};
ghost use Rattle.kernels.specs.Kernel.{has_kernel};
ghost use Rattle.kernels.specs.Kind.{kind_number};

pub use adst_tables::{adst4, adst8, adst16};
use answer::Refusal;
pub use dct_tables::dct32;

// The kind of a transform.
#[derive(Clone, Copy)]
pub enum Kind {
    Dct,
    Adst,
}

impl Kind {
    // The kind of a number, which is to have a kernel at side n: number 2's rule. Public calls take the number, since they refuse any other than 0 and 1.
    #[inline(always)]
    #[tactic(auto, unfolding(crate::specs::Kernel::has_kernel))]
    pub fn new(number: u32, n: usize) -> Result<Kind, Refusal>
        ensures { MatchResult result (λ kind. (kind_number kind ≡ number) × (has_kernel number n ≡ true)) (λ why. (why ≡ BadKind) × (has_kernel number n ≡ false)) }
    {
        match number {
            0 => Ok(Kind::Dct),
            1 if n != 32 => Ok(Kind::Adst),
            _ => Err(Refusal::BadKind),
        }
    }
}
