// The refusals of a search for edits, of coefficients and of levels.
ghost use Rattle.std.specs.Prelude.{◌≡◌};
ghost use Rattle.refusal.specs.Outcome.{accepted, refused, answer};
ghost use Rattle.edit_blocks.specs.Ladder.{level_edit_ladder};

use refusal::Refusal;
use transform_1d::Kind;

// The lowest row that applies, by the lengths of the list, of the coefficients or levels given, and of the other buffers. Where no list can be lent, 64 stands for its length.
// Kept: each length is a number of its own, which one line measures; a struct of them would be made at each of the two calls.
#[tactic(auto, unfolding(crate::specs::Ladder::level_edit_ladder))]
pub fn edit_refusal(
    kind: Kind,
    n: usize,
    bit_depth: u8,
    entries: usize,
    given: usize,
    target: usize,
    wanted: usize,
    least: usize,
    most: usize,
) -> Result<(), Refusal>
    ensures { answer result ≡ level_edit_ladder (refused tt) (accepted tt) kind n bit_depth entries given target wanted least most }
{
    refusal::check_size(n)?;
    refusal::check_depth(bit_depth)?;
    refusal::check(transform_1d::dst_refused(kind, n), Refusal::DstSizeInvalid)?;
    refusal::check_list(entries)?;
    refusal::check_room(n, given, Refusal::InputTooShort)?;
    refusal::check_room(n, target, Refusal::InputTooShort)?;
    refusal::check_room(n, wanted, Refusal::InputTooShort)?;
    refusal::check_room(n, least, Refusal::OutputTooShort)?;
    refusal::check_room(n, most, Refusal::OutputTooShort)
}
