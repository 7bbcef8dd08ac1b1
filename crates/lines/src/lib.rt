// One line of a pass: the pieces that every side is made of, with sums that wrap; the widening of a kernel, and the loops over lines.
#![tactic(auto)]

mod dense;
mod fold;
mod spaced;
mod square;
mod transform;
mod wide;

pub use dense::Dense;
pub use fold::{halve, zeroth};
pub use spaced::{Line, Source, whole};
pub use square::Setup;
pub use transform::{Transform, run_lines};
pub use wide::{square_at, widen_odd_squares, widen_square};
