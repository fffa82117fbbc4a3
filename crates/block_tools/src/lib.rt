// The block tools of the range extensions with 32-bit output: rotation by half a turn, accumulated residuals, and the bypass.
#![tactic(auto)]

mod bypass;
mod skip;

pub use block_tool_rules::Accumulate;
pub use bypass::bypass_residual;
pub use skip::transform_skip_residual;
