// The text of a feed: the rows of a block with the line behind them, and the two lines behind all blocks. Internal but for what `feed`
// passes on.
#![tactic(auto)]

ghost use Rattle.text.specs.Text.{Counts};

mod block_text;
mod line_text;

pub use block_text::{put_reading, put_rows};
pub use line_text::{blocks_line, put_blocks, put_refused, refusal_line};

// One line of text: the first `end` bytes.
// Kept: no heap, so a line that is handed back is an array with the end of its text. The kit's `arrayvec` has a text of fixed room, but what writes texts here
// writes into a slice: such a text would be filled with zeros first and cut afterwards.
#[derive(Clone, Copy)]
pub struct Line {
    pub bytes: [u8; 40],
    pub end: usize,
    ghost counts: { Counts end bytes },
}
