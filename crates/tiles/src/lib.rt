// The calls on a plane as the C interface makes them: the record is given and comes back by value, and the answer is one signed number. C has a call for
// the columns and one for the rows; rooms and kinds are its numbers.
#![tactic(auto)]

ghost use Rattle.std.specs.Prelude.{◌≡◌, true, false, T, length};
ghost use Rattle.answer.specs.Answer.{told, is_small, signed_of};
ghost use Rattle.tickets.specs.Batch.{batch_of};
ghost use Rattle.plane.specs.Plane.{site_of, new_tile, opening, closing};
ghost use Rattle.plane.specs.Batch.{columns_in, rows_in};
ghost use Rattle.tiles.specs.Tiles.{SignedMaking, SignedPlanned, SignedKept};

use plane::{Plane, Planed, Site};

// What a call gives back: the record, and its answer as one signed number.
#[derive(Drop)]
pub struct Lent {
    pub plane: Plane,
    pub number: i64,
}

impl Lent {
    #[inline(always)]
    fn new(done: Planed) -> Lent
        requires { T (is_small (told done.outcome)) }
        ensures { (result.number ≡ signed_of (told done.outcome)) × (result.plane ≡ done.plane) }
    {
        Lent {
            plane: done.plane,
            number: answer::signed(done.outcome),
        }
    }

    // Stores the record where a caller keeps it. The answer.
    #[inline(always)]
    pub fn store(self, plane: &mut Plane) -> i64
        ensures { (result ≡ self.number) × (plane.new ≡ self.plane) }
    {
        *plane = self.plane;
        self.number
    }
}

// A plane of these sides; where that is refused, the record is the one given.
#[tactic(auto, unfolding(plane::specs::Plane::making), using(plane::proofs::Small::making_small))]
pub fn make(given: Plane, w: usize, h: usize) -> Lent
    ensures { SignedMaking w h given result.number result.plane }
{
    let made = plane::make_plane(w, h);
    match made.outcome {
        Ok(_) => Lent::new(made),
        Err(why) => Lent::new(Planed {
            plane: given,
            outcome: Err(why),
        }),
    }
}

pub fn open_tile(
    given: Plane,
    room: u32,
    x: usize,
    y: usize,
    w: usize,
    h: usize,
    column_kind: u32,
    row_kind: u32,
    residuals: &[i32],
    scratch: &[i32],
    output: &[i32],
) -> Lent
    ensures { SignedPlanned (opening given (new_tile (site_of room x y w h column_kind row_kind)) residuals.now
        (length scratch.now) (length output.now)) result.number result.plane }
{
    let site = Site {
        room,
        x,
        y,
        w,
        h,
        column_kind,
        row_kind,
    };
    Lent::new(plane::open_tile(given, site, residuals, scratch, output))
}

pub fn close_tile(given: Plane, room: u32, tile: usize) -> Lent
    ensures { SignedPlanned (closing given room tile) result.number result.plane }
{
    Lent::new(plane::close_tile(given, room, tile))
}

pub fn columns(
    given: Plane,
    room: u32,
    tile: usize,
    residuals: &[i32],
    scratch: &mut [i32],
    start: usize,
    count: usize,
) -> Lent
    ensures { SignedKept (columns_in given room tile (batch_of false start count) residuals.now scratch.old)
        result.number result.plane scratch.new }
{
    let done = plane::tile_columns(given, room, tile, residuals, scratch, start, count);
    Lent::new(done)
}

pub fn rows(
    given: Plane,
    room: u32,
    tile: usize,
    scratch: &[i32],
    output: &mut [i32],
    start: usize,
    count: usize,
) -> Lent
    ensures { SignedKept (rows_in given room tile (batch_of true start count) scratch.now output.old)
        result.number result.plane output.new }
{
    let done = plane::tile_rows(given, room, tile, scratch, output, start, count);
    Lent::new(done)
}
