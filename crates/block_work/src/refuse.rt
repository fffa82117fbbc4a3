// The refusals that an opening, an edit and stage two alone share.
ghost use Rattle.std.specs.Prelude.{◌≡◌};
ghost use Rattle.refusal.specs.Outcome.{accepted, refused, answer};
ghost use Rattle.block_rules.specs.Edit.{block_ladder};
ghost use Rattle.block_rules.specs.Work.{PlaceChecked};

use refusal::Refusal;
use transform_1d::Kind;

// The lowest row that applies, by the lengths of the buffers.
// Kept: each length is a number of its own, which one line measures.
#[tactic(auto, unfolding(block_rules::specs::Edit::block_ladder))]
pub fn block_refusal(
    kind: Kind,
    n: usize,
    bit_depth: u8,
    coeff: usize,
    inter: usize,
    residual: usize,
) -> Result<(), Refusal>
    ensures { answer result ≡ block_ladder (refused tt) (accepted tt) kind n bit_depth coeff inter residual }
{
    refusal::check_size(n)?;
    refusal::check_depth(bit_depth)?;
    refusal::check(transform_1d::dst_refused(kind, n), Refusal::DstSizeInvalid)?;
    refusal::check_room(n, coeff, Refusal::InputTooShort)?;
    refusal::check_room(n, inter, Refusal::OutputTooShort)?;
    refusal::check_room(n, residual, Refusal::OutputTooShort)
}

// Row 8 stops an edit whose place lies outside the block.
pub fn check_place(n: usize, row: usize, column: usize) -> Result<(), Refusal>
    ensures { PlaceChecked n row column result }
{
    refusal::check(n <= row || n <= column, Refusal::PlaceOutside)
}
