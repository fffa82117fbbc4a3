// The feed: records of parameters, lists, levels, edits and readings in, rows of residuals as text out. On slices; `feed_main` is the program.
#![tactic(auto)]

ghost use Rattle.std.specs.Prelude.{◌≡◌};
ghost use Rattle.feed.specs.declared.StepError.TheVariants.{Refused};

use refusal::Refusal;

mod stream;

pub use feed_format::{
    List, Mode, Parameters, feed_room, list_ignored, record_length, record_room,
};
pub use feed_lines::{Line, blocks_line, refusal_line};
pub use feed_state::{State, Taken, start};
pub use stream::{run, step};

// Why a record was not taken: it was refused, or a buffer was too short for it.
// Kept: `NoRoom` is no row of the table that `Refusal` is; a `Result<Option<Taken>, Refusal>` in place of this would hide an error in an `Ok`.
#[derive(Clone, Copy, Debug, PartialEq, Eq)]
pub enum StepError {
    Refused(Refusal),
    NoRoom,
}

impl From<Refusal> for StepError {
    ghost from_gives = { λ why e. e ≡ Refused why };

    fn from(why: Refusal) -> StepError {
        StepError::Refused(why)
    }
}
