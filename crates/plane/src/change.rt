// What an accepted call does to a record.
ghost use Rattle.std.specs.Prelude.{◌<◌};

use super::Tile;

// The record's tile n is this one then, and the call has this answer.
#[derive(Clone, Copy)]
pub(crate) struct Change {
    pub n: usize,
    pub tile: Tile,
    pub answer: usize,
    ghost small: { n < 16 },
}
