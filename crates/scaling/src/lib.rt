// Scaling of one value: m, one level, and the record that points at a scaling list.
#![tactic(auto)]

pub use scaling_values::ScaledLevel;

mod factor;
mod level;
mod matrix;

pub use factor::scaling_coeff;
pub use level::scale_level;
pub use matrix::coeff;

// A scaling matrix: it points at the caller's list.
// Kept: the record of the ported Rust (docs/DIFFERENCES.md says what is left out of it); `ScalingList` has no size.
#[derive(Clone, Copy)]
pub struct ScalingMatrix<'a> {
    pub list: &'a [u8],
    pub dc: u8,
    pub size: usize,
}
