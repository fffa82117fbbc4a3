// The listing of one block: for each index the m that scaling uses, and the rule that supplies it; and the room that a listing may take.
// Internal: callers meet each `requires`.
#![tactic(auto)]

mod line_text;
mod room;
mod rule;

pub use line_text::put_lines;
pub use room::{list_room, listing_room, size_of};

// The rule that supplies m, with the position in the list where the rule has one.
#[derive(Clone, Copy)]
pub enum Source {
    None,
    Four(usize),
    Eight(usize),
    Dc,
    Repeat(usize),
    Skip,
}
