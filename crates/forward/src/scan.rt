// The order in which a block's coefficients are quantized: column by column. The second entry is then the width, so an entry is the place
// that it means.
ghost use Rattle.std.specs.Prelude.{◌*◌, ◌<◌};

use sizes::Size;

// Place i of a table of this size, row by row, is this place of it column by column.
fn turned(i: usize, size: Size) -> usize
    requires { i < size.w * size.h }
    ensures { result < size.w * size.h }
{
    i % size.w * size.h + i / size.w
}

// The places of a block, column by column.
pub fn fill(size: Size, places: &mut [u16; 1024]) {
    let columns = Size {
        w: size.h,
        h: size.w,
    };
    for i in 0..size.places() {
        places[i] = turned(i, columns) as u16;
    }
}

// The levels that stand column by column, row by row. At 64 bits every digit of one is printed.
pub fn by_rows(size: Size, levels: &[f32; 1024]) -> [f64; 1024] {
    let mut rows = [0.0f64; 1024];
    for i in 0..size.places() {
        rows[i] = f64::from(levels[turned(i, size)]);
    }
    rows
}
