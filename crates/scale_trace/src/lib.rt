// A listing of a feed's scaling factors: for each index of a block the m that scaling uses, and the rule that supplies it. On slices;
// `scale_trace_main` is the program.
#![tactic(auto)]

mod stream;

pub use scale_trace_block::listing_room;
pub use stream::{run, step};
