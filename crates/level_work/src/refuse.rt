// The refusals that an opening on levels and a level edit share.
ghost use Rattle.std.specs.Prelude.{◌≡◌};
ghost use Rattle.refusal.specs.Outcome.{accepted, refused, answer};
ghost use Rattle.block_rules.specs.Level.{level_ladder};

use refusal::Refusal;
use transform_1d::Kind;

// The lowest row that applies, by the lengths of the list and of the buffers.
// Kept: each length is a number of its own, which one line measures.
// Kept: the rows but 5 and the levels' are block_work's too; level_ladder and block_ladder are two definitions, and one function would take a law between them.
#[tactic(auto, unfolding(block_rules::specs::Level::level_ladder))]
pub fn level_refusal(
    kind: Kind,
    n: usize,
    bit_depth: u8,
    list: usize,
    levels: usize,
    coeff: usize,
    inter: usize,
    residual: usize,
) -> Result<(), Refusal>
    ensures { answer result ≡ level_ladder (refused tt) (accepted tt) kind n bit_depth list levels coeff inter residual }
{
    refusal::check_size(n)?;
    refusal::check_depth(bit_depth)?;
    refusal::check(transform_1d::dst_refused(kind, n), Refusal::DstSizeInvalid)?;
    refusal::check_list(list)?;
    refusal::check_room(n, levels, Refusal::InputTooShort)?;
    refusal::check_room(n, coeff, Refusal::InputTooShort)?;
    refusal::check_room(n, inter, Refusal::OutputTooShort)?;
    refusal::check_room(n, residual, Refusal::OutputTooShort)
}
