// The DCT of a line.
ghost use Rattle.std.specs.Prelude.{◌≡◌};
ghost use Rattle.lines.specs.Table.{OddSquares};

use super::chain::Stages;
use lines::{Setup, Source, Transform};

// The DCT of side N, by its stages.
#[derive(Drop)]
pub(crate) struct Dct<'a, 'b, const N: usize, S: Stages> {
    pub(crate) setup: Setup<'a>,
    pub(crate) stages: &'b S,
    ghost squares: { OddSquares N setup.numbers.now },
    ghost whole: { S.count stages.now ≡ N },
}

impl<'a, 'b, const N: usize, S: Stages> Transform for Dct<'a, 'b, N, S> {
    ghost kind = { λ _. 0 };

    ghost side = { λ _. N };

    ghost shift = { λ t. t.setup.rounding.shift.bits };

    #[inline(always)]
    fn line(&self, source: &Source<'_>, j: usize, dst: &mut [i32], to: usize) {
        let mut o = [0i32; N];
        self.stages.run(&self.setup, 1, &source.line(j, N), &mut o);
        dst[to * N..to * N + N].copy_from_slice(&o);
    }
}
