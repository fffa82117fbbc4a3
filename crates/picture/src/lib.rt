// Rebuilt samples in a plane.
#![tactic(auto)]

mod rebuild;
mod refuse;

pub use rebuild::rebuild_block;
