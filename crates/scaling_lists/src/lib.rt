// Scaling lists read from the bitstream: the syntax of H.265 clause 7.3.4.
#![tactic(auto)]

mod coded;
mod held;
mod list;
mod reader;
mod taken;

pub use reader::read_scaling_lists;
