// Quantizing: the step of an index, and the levels of coefficients.
#![tactic(auto)]

mod float;
mod level;
mod reading;
mod scan;
mod step;

pub use level::quantize_one;
pub use scan::quantize_to_levels;
pub use step::qstep;

// The quantizer's settings. The integer step goes beside them.
#[derive(Clone, Copy)]
pub struct Settings {
    pub factor: f32,
    pub threshold: f32,
    pub dead_zone: f32,
}

// What becomes of a coefficient: dropped with its magnitude, or kept with level and magnitude.
#[derive(Drop)]
pub enum Place {
    Dropped(f32),
    Kept(f32, f32),
}
