// The records of a feed: their kinds, the lengths of their bodies and of their texts, and the values in a body. Internal but for what
// `feed` passes on.
#![tactic(auto)]

mod format;
mod room;
mod values;

pub use format::{
    dst_refused, flag_of, kind_of, known_mode, list_ignored, mode_of, record_at, record_length,
    record_room,
};
use refusal::Precision;
pub use room::feed_room;
pub use values::{LevelBytes, edit_level, list_of, read_levels};

// Kept: that the size in `Levels` is one of four is a clause (`size_known`), as in `refusal`: an enum has no ghost field.
#[derive(Clone, Copy)]
pub enum Kind {
    Parameters,
    List,
    NoList,
    Levels(usize),
    Edit,
    Reading,
}

#[derive(Clone, Copy)]
pub enum Mode {
    Transform(transform_1d::Kind),
    Skip,
}

#[derive(Clone, Copy)]
pub struct Parameters {
    pub precision: Precision,
    // Kept: the byte of the record; a `QpPrime` is an `i32`, and would ask each reader whether it is negative.
    pub qp_prime: u8,
    pub mode: Mode,
}

// A scaling list: its entries, and DC.
#[derive(Clone, Copy)]
pub struct List {
    pub entries: [u8; 64],
    pub dc: u8,
}
