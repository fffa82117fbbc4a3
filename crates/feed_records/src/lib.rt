// One record of a feed, below the question of room. Internal: callers meet each `requires`.
#![tactic(auto)]

mod open_block;
mod records;

pub use records::take_record;
