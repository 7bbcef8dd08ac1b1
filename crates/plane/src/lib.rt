// Two rooms on one frame plane: up to sixteen open tiles, each a block of one room, that share one output.
#![tactic(auto)]

mod change;

ghost use Rattle.std.specs.Prelude.{◌≡◌, true, false, not, ℕ, ◌+◌, ◌*◌, ◌≤◌, ◌<◌, ltb, length, IfSome, IfOk, MatchResult, is_ok};
ghost use Rattle.laws.specs.Store.{grid};
ghost use Rattle.laws.specs.Table.{every};
ghost use Rattle.answer.specs.declared.Refusal.TheVariants.{BadTile};
ghost use Rattle.tickets.specs.Batch.{batch_of};
ghost use Rattle.plane.specs.Places.{plane_place, line_number};
ghost use Rattle.plane.specs.Plane.{is_open, tile_at, new_tile, no_tile, with_tile, sides_ok, ticket_ok, placed, tile_ok, plane_ok, number_or_16, first_free, has_place, open_for, tile_answer, named_as, made, planned, planned_by, making, opening, closing};
ghost use Rattle.plane.specs.Bounds.{bounds_of, bounds_in, clear_at, clear_all, InLargest};
ghost use Rattle.plane.specs.Batch.{kept, kept_by, columns_in, rows_in};

use answer::{Outcome, Refusal};
use block::Shape;
use change::Change;
use sizes::Size;
use tickets::{Batch, Ticket};

// One number of a plane. Open where `opened` isn't 0; a closed one may hold anything, and nothing of it is looked at. This is the C
// interface's record: it lends tiles with any room and kinds, which are refused by 13 and 2, so that narrower types would ask more.
#[repr(C)]
#[derive(Clone, Copy)]
pub struct Tile {
    pub opened: u32,
    pub room: u32,
    pub x: usize,
    pub y: usize,
    pub ticket: Ticket,
}

// The record that both rooms lend in turn: the plane's sides, and its tiles by their numbers.
#[repr(C)]
#[derive(Clone, Copy)]
pub struct Plane {
    pub w: usize,
    pub h: usize,
    pub tiles: [Tile; 16],
}

// What a call gives back: the record for the next call whether it is accepted or refused, so that this isn't a Result of the two.
#[derive(Drop)]
pub struct Planed {
    pub plane: Plane,
    pub outcome: Outcome,
}

// Where a room wants a tile, and its block's sides and kinds. The room and the kinds are any, as a tile's are.
#[derive(Clone, Copy)]
pub struct Site {
    pub room: u32,
    pub x: usize,
    pub y: usize,
    pub w: usize,
    pub h: usize,
    pub column_kind: u32,
    pub row_kind: u32,
}

// A tile's first column and row of the plane, and those past its last. All are 0 where there is no tile.
#[derive(Clone, Copy)]
struct Bounds {
    left: u16,
    right: u16,
    top: u16,
    bottom: u16,
}

// The bounds of a plane's tiles by their numbers; past the last tile there are bounds of no tile. Four arrays, so that the compiler
// tests sixteen pairs side by side.
#[derive(Drop)]
struct AllBounds {
    lefts: [u16; 32],
    rights: [u16; 32],
    tops: [u16; 32],
    bottoms: [u16; 32],
}

// Whether a plane's sides are 4 to 256.
#[tactic(auto, unfolding(crate::specs::Plane::sides_ok))]
fn sides_ok(w: usize, h: usize) -> bool
    ensures { result ≡ sides_ok w h }
{
    ((4 <= w) & (w <= 256)) & ((4 <= h) & (h <= 256))
}

// Whether a tile lies in a plane of these sides, at multiples of 4, and is of room 0 or 1.
#[tactic(auto, unfolding(crate::specs::Plane::placed))]
fn is_placed(w: usize, h: usize, t: Tile) -> bool
    ensures { result ≡ placed w h t }
{
    (!sizes::ends_past(w, t.x, t.ticket.w) & !sizes::ends_past(h, t.y, t.ticket.h))
        & (((t.x % 4 == 0) & (t.y % 4 == 0)) & (t.room < 2))
}

// A ticket's block, where the ticket keeps the rules of 1, 2 and 6.
#[tactic(auto, unfolding(crate::specs::Plane::ticket_ok), using(sizes::proofs::Side::side_bounds))]
fn shape_of(t: Ticket) -> Result<Shape, Refusal>
    ensures { is_ok result ≡ ticket_ok t }
{
    let size = Size::new(t.w, t.h)?;
    let shape = Shape::new(size, t.column_kind, t.row_kind)?;
    if tickets::out_of_order(t, false) {
        return Err(Refusal::BatchOrder);
    }
    Ok(shape)
}

// Whether a tile is closed, or keeps every rule that it can break alone.
#[tactic(auto, unfolding(crate::specs::Plane::tile_ok))]
fn tile_ok(w: usize, h: usize, t: Tile) -> bool
    ensures { result ≡ tile_ok w h t }
{
    (t.opened == 0) || (shape_of(t.ticket).is_ok() & is_placed(w, h, t))
}

fn bounds_of(t: Tile) -> Bounds
    requires { InLargest t }
    ensures { result ≡ bounds_of t }
{
    if t.opened == 0 {
        return Bounds {
            left: 0,
            right: 0,
            top: 0,
            bottom: 0,
        };
    }
    Bounds {
        left: t.x as u16,
        right: (t.x + t.ticket.w) as u16,
        top: t.y as u16,
        bottom: (t.y + t.ticket.h) as u16,
    }
}

impl AllBounds {
    fn new(p: &Plane) -> AllBounds
        requires { (i : ℕ) → i < 16 → InLargest (tile_at p.now i) }
        ensures { (i : ℕ) → i < 32 → bounds_in result i ≡ bounds_of (tile_at p.now i) }
    {
        let mut all = AllBounds {
            lefts: [0; 32],
            rights: [0; 32],
            tops: [0; 32],
            bottoms: [0; 32],
        };
        for i in 0..16 {
            let b = bounds_of(p.tiles[i]);
            all.lefts[i] = b.left;
            all.rights[i] = b.right;
            all.tops[i] = b.top;
            all.bottoms[i] = b.bottom;
        }
        all
    }

    // Whether no tile has a place in common with the one whose number is k more.
    #[inline(always)]
    #[tactic(auto, unfolding(crate::specs::Bounds::clear_at))]
    fn is_clear_at(&self, k: usize) -> bool
        requires { k < 16 }
        ensures { result ≡ clear_at k (bounds_in self.now) }
    {
        let mut clear = true;
        for i in 0..16 {
            let j = i + k;
            clear &= !(((self.lefts[i] < self.rights[j]) & (self.lefts[j] < self.rights[i]))
                & ((self.tops[i] < self.bottoms[j]) & (self.tops[j] < self.bottoms[i])));
        }
        clear
    }

    // Whether no two tiles have a place in common.
    #[tactic(auto, unfolding(crate::specs::Bounds::clear_all))]
    fn is_clear(&self) -> bool
        ensures { result ≡ clear_all (bounds_in self.now) }
    {
        let mut clear = true;
        for k in 0..15 {
            clear &= self.is_clear_at(k + 1);
        }
        clear
    }
}

// Whether each tile of a record keeps every rule that it can break alone.
fn tiles_ok(p: &Plane) -> bool
    ensures { result ≡ every 16 (λ i. tile_ok p.now.w p.now.h (tile_at p.now i)) }
{
    let w = p.w;
    let h = p.h;
    p.tiles.iter().all(|t| tile_ok(w, h, *t))
}

// Whether a lent record keeps every rule.
fn plane_ok(p: &Plane) -> bool
    ensures { result ≡ plane_ok p.now }
{
    if !sides_ok(p.w, p.h) {
        return false;
    }
    if !tiles_ok(p) {
        return false;
    }
    AllBounds::new(p).is_clear()
}

// The smallest number that no open tile has.
fn first_free(p: &Plane) -> Option<usize>
    ensures value { number_or_16 result ≡ first_free p.now }
    ensures small { IfSome result (λ n. n < 16) }
{
    p.tiles.iter().position(|t| t.opened == 0)
}

// Whether tile n is open for a room.
#[tactic(auto, unfolding(crate::specs::Plane::open_for))]
fn is_open_for(p: &Plane, room: u32, n: usize) -> bool
    ensures { result ≡ open_for p.now room n }
{
    if 16 <= n {
        return false;
    }
    let t = p.tiles[n];
    (t.opened != 0) & (t.room == room)
}

// Tile n, which a call names with a room: or 13 or 14. Record, room and number stay three arguments here and below: a struct of them would
// hold a reference to the record, and be no plainer.
#[tactic(auto, unfolding(crate::specs::Plane::tile_answer, crate::specs::Plane::open_for, answer::specs::Answer::lowest))]
fn named(p: &Plane, room: u32, n: usize) -> Result<Tile, Refusal>
    ensures answer { named_as n result ≡ tile_answer p.now room n }
    ensures found { IfOk result (λ t. (n < 16) × (t ≡ tile_at p.now n)) }
{
    let reached = is_open_for(p, room, n);
    let valid = (room < 2) & plane_ok(p);
    if valid & reached {
        return Ok(p.tiles[n]);
    }
    if valid {
        return Err(Refusal::TileNotOpen);
    }
    Err(Refusal::BadTile)
}

impl Plane {
    #[inline(always)]
    fn with_tile(&self, n: usize, t: Tile) -> Plane
        requires { n < 16 }
        ensures { result ≡ with_tile self.now n t }
    {
        let mut next = *self;
        next.tiles[n] = t;
        next
    }

    // What a call gives back: the record with its change, or as lent where the call is refused.
    #[inline(always)]
    fn after(mut self, change: Result<Change, Refusal>) -> Planed
        ensures { planned result ≡ planned_by self change }
    {
        let outcome = match change {
            Ok(c) => {
                self.tiles[c.n] = c.tile;
                Ok(c.answer)
            }
            Err(why) => Err(why),
        };
        Planed {
            plane: self,
            outcome,
        }
    }
}

// A batch of a tile's ticket, on its own buffers.
#[tactic(auto, unfolding(crate::specs::Batch::columns_in))]
fn columns_of(
    p: &Plane,
    room: u32,
    n: usize,
    b: Batch,
    residuals: &[i32],
    scratch: &mut [i32],
) -> Result<Change, Refusal>
    ensures { kept_by p.now result scratch.new ≡ columns_in p.now room n b residuals.now scratch.old }
{
    let tile = named(p, room, n)?;
    let done = tickets::run(tile.ticket, b, residuals, scratch);
    let answer = done.outcome?;
    let tile = Tile {
        ticket: done.ticket,
        ..tile
    };
    Ok(Change { n, tile, answer })
}

// A column batch of tile n.
pub fn tile_columns(
    plane: Plane,
    room: u32,
    n: usize,
    residuals: &[i32],
    scratch: &mut [i32],
    start: usize,
    count: usize,
) -> Planed
    ensures { kept result scratch.new ≡ columns_in plane room n (batch_of false start count) residuals.now scratch.old }
{
    let batch = Batch::columns(start, count);
    let change = columns_of(&plane, room, n, batch, residuals, scratch);
    plane.after(change)
}

// Lines of w numbers into a plane that is width numbers wide: the first to place x, y, each next one a row below. Widths are numbers of a place here,
// and no buffer's lengths.
fn put_lines(
    from: &[i32],
    w: usize,
    count: usize,
    width: usize,
    x: usize,
    y: usize,
    output: &mut [i32],
)
    requires { (1 ≤ w) × (count * w ≤ length from.now) × (x + w ≤ width) × ((y + count) * width ≤ length output.old) }
    ensures { output.new ≡ grid output.old count w (plane_place width x y) (line_number from.now w) }
{
    for i in 0..count {
        let at = (y + i) * width + x;
        let line = i * w;
        output[at..at + w].copy_from_slice(&from[line..line + w]);
    }
}

// A row batch of a tile: a preview of its lines, put in the tile's places.
#[tactic(auto, unfolding(crate::specs::Batch::rows_in))]
fn rows_of(
    p: &Plane,
    room: u32,
    n: usize,
    start: usize,
    count: usize,
    scratch: &[i32],
    output: &mut [i32],
) -> Result<Change, Refusal>
    ensures { kept_by p.now result output.new ≡ rows_in p.now room n (batch_of true start count) scratch.now output.old }
{
    let tile = named(p, room, n)?;
    if output.len() < p.w * p.h {
        return Err(Refusal::ShortBuffer);
    }
    let batch = Batch::rows(start, count);
    let ticket = tile.ticket;
    let mut rows = [0i32; 256];
    let answer = previews::preview(ticket, batch, scratch, output, &mut rows)?;
    put_lines(&rows, ticket.w, count, p.w, tile.x, tile.y + start, output);
    let tile = Tile {
        ticket: tickets::with_batch(ticket, batch),
        ..tile
    };
    Ok(Change { n, tile, answer })
}

// A row batch of tile n.
pub fn tile_rows(
    plane: Plane,
    room: u32,
    n: usize,
    scratch: &[i32],
    output: &mut [i32],
    start: usize,
    count: usize,
) -> Planed
    ensures { kept result output.new ≡ rows_in plane room n (batch_of true start count) scratch.now output.old }
{
    let change = rows_of(&plane, room, n, start, count, scratch, output);
    plane.after(change)
}

// Whether a length is below a product, which may be larger than any length.
fn below_product(n: usize, a: usize, b: usize) -> bool
    ensures { result ≡ ltb n (a * b) }
{
    match a.checked_mul(b) {
        Some(product) => n < product,
        None => true,
    }
}

// The number that t gets in a record: or 13.
#[tactic(auto, unfolding(crate::specs::Plane::has_place))]
fn number_for(p: &Plane, t: Tile) -> Result<usize, Refusal>
    ensures { MatchResult result (λ n. (n < 16) × (n ≡ first_free p.now) × (has_place p.now t ≡ true)) (λ why. (why ≡ BadTile) × (has_place p.now t ≡ false)) }
{
    let free = first_free(p).ok_or(Refusal::BadTile)?;
    let next = p.with_tile(free, t);
    if !plane_ok(&next) {
        return Err(Refusal::BadTile);
    }
    Ok(free)
}

// Opening t with residuals, a scratch and an output of these lengths: or the first number that applies.
#[tactic(auto, unfolding(crate::specs::Plane::opening, crate::specs::Plane::open_answer, answer::specs::Answer::lowest), using(residual::proofs::Residual::slice_ok))]
fn opening_of(
    p: &Plane,
    t: Tile,
    residuals: &[i32],
    scratch: usize,
    output: usize,
) -> Result<Change, Refusal>
    ensures { planned_by p.now result ≡ opening p.now t residuals.now scratch output }
{
    let ticket = t.ticket;
    let size = Size::new(ticket.w, ticket.h)?;
    let _shape = Shape::new(size, ticket.column_kind, ticket.row_kind)?;
    let places = size.places();
    if (residuals.len() < places) | ((scratch < places) | below_product(output, p.w, p.h)) {
        return Err(Refusal::ShortBuffer);
    }
    let n = number_for(p, t)?;
    if !residual::residuals_ok(&residuals[..places]) {
        return Err(Refusal::ResidualRange);
    }
    Ok(Change {
        n,
        tile: t,
        answer: n,
    })
}

// The tile that a site asks for, with no marks.
fn new_tile(s: Site) -> Tile
    ensures { result ≡ new_tile s }
{
    Tile {
        opened: 1,
        room: s.room,
        x: s.x,
        y: s.y,
        ticket: tickets::new_ticket(s.w, s.h, s.column_kind, s.row_kind),
    }
}

// Opens a tile at the smallest free number, which is the answer.
pub fn open_tile(
    plane: Plane,
    site: Site,
    residuals: &[i32],
    scratch: &[i32],
    output: &[i32],
) -> Planed
    ensures { planned result ≡ opening plane (new_tile site) residuals.now (length scratch.now) (length output.now) }
{
    let tile = new_tile(site);
    let change = opening_of(&plane, tile, residuals, scratch.len(), output.len());
    plane.after(change)
}

// What a number holds that has no tile: zeros.
fn no_tile() -> Tile
    ensures { result ≡ no_tile }
{
    Tile {
        opened: 0,
        room: 0,
        x: 0,
        y: 0,
        ticket: tickets::new_ticket(0, 0, 0, 0),
    }
}

#[tactic(auto, unfolding(crate::specs::Plane::closing))]
fn closing_of(p: &Plane, room: u32, n: usize) -> Result<Change, Refusal>
    ensures { planned_by p.now result ≡ closing p.now room n }
{
    named(p, room, n)?;
    Ok(Change {
        n,
        tile: no_tile(),
        answer: n,
    })
}

// Closes tile n, whose number is the answer.
pub fn close_tile(plane: Plane, room: u32, n: usize) -> Planed
    ensures { planned result ≡ closing plane room n }
{
    let change = closing_of(&plane, room, n);
    plane.after(change)
}

// A record with no tile open.
#[tactic(auto, unfolding(crate::specs::Plane::made, laws::specs::Store::tab))]
fn new_plane(w: usize, h: usize) -> Plane
    ensures { result ≡ made w h }
{
    Plane {
        w,
        h,
        tiles: [no_tile(); 16],
    }
}

// Makes a plane of these sides; refused, a record of zeros, which every call refuses.
#[tactic(auto, unfolding(crate::specs::Plane::making, crate::specs::Plane::make_answer, answer::specs::Answer::lowest))]
pub fn make_plane(w: usize, h: usize) -> Planed
    ensures { planned result ≡ making w h }
{
    if !sides_ok(w, h) {
        return Planed {
            plane: new_plane(0, 0),
            outcome: Err(Refusal::BadSize),
        };
    }
    Planed {
        plane: new_plane(w, h),
        outcome: Ok(0),
    }
}
