// A transform of a line by dense sums: the ADST.
ghost use Rattle.std.specs.Prelude.{◌≡◌};
ghost use Rattle.kernels.specs.Kernel.{by_sample};

use super::spaced::Source;
use super::square::{Setup, Square, sums};
use super::transform::Transform;

// The transform of a kind at side N by all the numbers of its kernel.
#[derive(Drop)]
pub struct Dense<'a, const KIND: usize, const N: usize> {
    pub setup: Setup<'a>,
    ghost kernel: { setup.numbers.now ≡ by_sample KIND N },
}

impl<'a, const KIND: usize, const N: usize> Transform for Dense<'a, KIND, N> {
    ghost kind = { λ _. KIND };

    ghost side = { λ _. N };

    ghost shift = { λ t. t.setup.rounding.shift.bits };

    #[inline(always)]
    fn line(&self, source: &Source<'_>, j: usize, dst: &mut [i32], to: usize) {
        let square = Square {
            numbers: self.setup.numbers,
            at: 0,
            side: N,
        };
        let mut o = [0i32; N];
        sums(&square, &source.line(j, N), self.setup.rounding, &mut o);
        dst[to * N..to * N + N].copy_from_slice(&o);
    }
}
