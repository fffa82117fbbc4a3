// What the programs of cases share: numbers read from a file of cases, low byte first, and numbers and answers written to standard output. A reader
// may end or fail at any byte, and what writes hands nothing back, so that these functions state lengths, bounds, and which bytes a value stands for.
#![tactic(auto)]

mod defaults;
mod reading;
mod replay;
mod writing;

pub use defaults::{Defaults, kept, put_refused};
pub use reading::{
    Number, are_next, copy_text, named, next, next_kind, next_length, next_precision,
    next_short_length, read_all, read_bytes, read_first, read_indices, read_named,
};
pub use replay::replay_all;
pub use writing::{
    put, put_all, put_answer, put_count, put_each, put_end, put_flag, put_place, put_refusal,
    put_same, put_value,
};
