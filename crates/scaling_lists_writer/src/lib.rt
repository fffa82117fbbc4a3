// Scaling lists written to a bitstream: the syntax of H.265 clause 7.3.4.
#![tactic(auto)]

mod values;
mod writer;

pub use writer::write_scaling_lists;
