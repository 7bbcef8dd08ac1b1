// The functions of the C interface that take a plane record: one that the caller keeps and lends. Each runs the call on a copy of it, and
// stores the record that comes back.
ghost use Rattle.std.specs.Prelude.{true, false, length};
ghost use Rattle.tickets.specs.Batch.{batch_of};
ghost use Rattle.plane.specs.Plane.{site_of, new_tile, opening, closing};
ghost use Rattle.plane.specs.Batch.{columns_in, rows_in};
ghost use Rattle.tiles.specs.Tiles.{SignedMaking, SignedPlanned, SignedKept};

use plane::Plane;

// Makes a plane of these sides, with no tile open, where the caller's record stands.
#[unsafe(no_mangle)]
pub extern "C" fn mizdrek_make_plane(w: usize, h: usize, plane: &mut Plane) -> i64
    ensures { SignedMaking w h plane.old result plane.new }
{
    tiles::make(*plane, w, h).store(plane)
}

#[unsafe(no_mangle)]
pub extern "C" fn mizdrek_open_tile(
    plane: &mut Plane,
    room: u32,
    x: usize,
    y: usize,
    w: usize,
    h: usize,
    column_kind: u32,
    row_kind: u32,
    residuals: &[i32],
    scratch: &[i32],
    output: &[i32],
) -> i64
    ensures { SignedPlanned (opening plane.old (new_tile (site_of room x y w h column_kind row_kind)) residuals.now
        (length scratch.now) (length output.now)) result plane.new }
{
    tiles::open_tile(
        *plane,
        room,
        x,
        y,
        w,
        h,
        column_kind,
        row_kind,
        residuals,
        scratch,
        output,
    )
    .store(plane)
}

#[unsafe(no_mangle)]
pub extern "C" fn mizdrek_close_tile(plane: &mut Plane, room: u32, tile: usize) -> i64
    ensures { SignedPlanned (closing plane.old room tile) result plane.new }
{
    tiles::close_tile(*plane, room, tile).store(plane)
}

#[unsafe(no_mangle)]
pub extern "C" fn mizdrek_tile_columns(
    plane: &mut Plane,
    room: u32,
    tile: usize,
    residuals: &[i32],
    scratch: &mut [i32],
    start: usize,
    count: usize,
) -> i64
    ensures { SignedKept (columns_in plane.old room tile (batch_of false start count) residuals.now scratch.old)
        result plane.new scratch.new }
{
    tiles::columns(*plane, room, tile, residuals, scratch, start, count).store(plane)
}

#[unsafe(no_mangle)]
pub extern "C" fn mizdrek_tile_rows(
    plane: &mut Plane,
    room: u32,
    tile: usize,
    scratch: &[i32],
    output: &mut [i32],
    start: usize,
    count: usize,
) -> i64
    ensures { SignedKept (rows_in plane.old room tile (batch_of true start count) scratch.now output.old)
        result plane.new output.new }
{
    tiles::rows(*plane, room, tile, scratch, output, start, count).store(plane)
}
