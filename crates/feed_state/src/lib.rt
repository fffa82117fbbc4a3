// What a feed keeps between records, and the records that change nothing else: parameters and lists. Internal but for what `feed` passes on.
#![tactic(auto)]

use edited_block::EditedBlock;
use feed_format::{List, Parameters};

mod settings;
mod states;

pub use settings::{take_list, take_no_list, take_parameters};
pub use states::{list_for, scaling_list, start, with_closed, with_open};

// What a feed keeps between records: the parameters and the list, once there are any, and the record of the block of the latest levels
// record while it can be edited and read; its levels, coefficients, intermediate and residual are in buffers that stay with the caller.
// The offset is that of the next record's kind, in bytes from the feed's first.
#[derive(Clone, Copy)]
pub struct State {
    pub given: Option<Parameters>,
    pub list: Option<List>,
    pub held: Option<EditedBlock>,
    pub blocks: u64,
    pub offset: u64,
}

// What a record that was accepted leaves: the state after it, and the place in the buffer where its text ends. A refused one leaves both as
// they were.
#[derive(Clone, Copy)]
pub struct Taken {
    pub state: State,
    pub end: usize,
}
