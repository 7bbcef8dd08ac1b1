// The DCT of a line by stages, each of which folds the line to half its length. A stage holds those after it, so that every length is known as it is
// compiled and no loop is left over: Rattle computes no const argument, so one function can't call itself at half a const length. The recursion of
// `passes`, over lengths known at run time, is quick only where lines are worked side by side, and a batch may have one alone.
ghost use Rattle.std.specs.Prelude.{◌≡◌, ℕ, ◌*◌, ◌^◌, ◌<◌, length};
ghost use Rattle.lines.specs.Line.{line_at};
ghost use Rattle.lines.specs.Stage.{Staging, Completes};

use lines::{Line, Setup, halve, whole, zeroth};

// The stages that a line of count numbers goes through.
pub(crate) trait Stages {
    ghost count: { Self → ℕ };

    // Its frequencies, which are those of every step-th of the side.
    fn run(&self, setup: &Setup<'_>, step: usize, line: &Line<'_>, o: &mut [i32])
        requires { Staging (count self.now) step line.now.count (length o.old) setup.now.numbers.now }
        ensures { Completes (count self.now) step setup.now.rounding.shift.bits (line_at line.now.numbers.now line.now.at line.now.stride) o.old o.new };
}

// Two numbers, the last.
#[derive(Drop)]
pub(crate) struct Last {}

impl Stages for Last {
    ghost count = { λ _. 2 };

    #[inline(always)]
    fn run(&self, setup: &Setup<'_>, step: usize, line: &Line<'_>, o: &mut [i32]) {
        let mut s = [0i32; 1];
        halve(setup, step, line, &mut s, o);
        zeroth(setup, &s, o);
    }
}

// Twice H numbers, where H is 2 ^ D, and the stages of the H that are left.
#[derive(Drop)]
pub(crate) struct Stage<const D: usize, const H: usize, R: Stages + Drop> {
    pub(crate) rest: R,
    ghost left: { R.count rest ≡ H },
    ghost power: { H ≡ 2 ^ D },
    ghost few: { D < 5 },
}

impl<const D: usize, const H: usize, R: Stages + Drop> Stages for Stage<D, H, R> {
    ghost count = { λ _. 2 * H };

    #[inline(always)]
    fn run(&self, setup: &Setup<'_>, step: usize, line: &Line<'_>, o: &mut [i32]) {
        let mut s = [0i32; H];
        halve(setup, step, line, &mut s, o);
        self.rest.run(setup, 2 * step, &whole(&s), o);
    }
}

pub(crate) type From4 = Stage<1, 2, Last>;

pub(crate) type From8 = Stage<2, 4, From4>;

pub(crate) type From16 = Stage<3, 8, From8>;

pub(crate) type From32 = Stage<4, 16, From16>;

#[inline(always)]
pub(crate) fn from_4() -> From4 {
    Stage { rest: Last {} }
}

#[inline(always)]
pub(crate) fn from_8() -> From8 {
    Stage { rest: from_4() }
}

#[inline(always)]
pub(crate) fn from_16() -> From16 {
    Stage { rest: from_8() }
}

#[inline(always)]
pub(crate) fn from_32() -> From32 {
    Stage { rest: from_16() }
}
