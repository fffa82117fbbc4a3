// The refusals of a bypass, lowest number first, where rotation adds row 25 to them.
ghost use Rattle.std.specs.Prelude.{◌≡◌};
ghost use Rattle.refusal.specs.Outcome.{answer, accepted, refused};
ghost use Rattle.block_tool_rules.specs.Residual.{bypass_ladder};

use refusal::{Precision, Refusal};

// A bypass, whose levels are the residual and lie in the range of coefficients.
#[tactic(auto, using(h265::proofs::RangeLaws::transform_range_most), unfolding(block_tool_rules::specs::Residual::bypass_ladder))]
pub fn bypass_checked(
    levels: &[i32],
    n: usize,
    precision: Precision,
    rotate: bool,
    places: usize,
) -> Result<(), Refusal>
    ensures { answer result ≡ bypass_ladder (refused tt) (accepted tt) rotate n precision.bit_depth precision.extended levels.now places }
{
    refusal::check_size(n)?;
    refusal::check_depth(precision.bit_depth)?;
    refusal::check(
        refusal::rotation_refused(rotate, n),
        Refusal::RotationSizeInvalid,
    )?;
    refusal::check_room(n, levels.len(), Refusal::InputTooShort)?;
    refusal::check_room(n, places, Refusal::OutputTooShort)?;
    let range = coefficients::transform_range(precision);
    coefficients::check_inside(levels, n, n, range)
}
