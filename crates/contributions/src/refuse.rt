// The refusals of a call for one sample.
ghost use Rattle.std.specs.Prelude.{◌≡◌};
ghost use Rattle.refusal.specs.Outcome.{accepted, refused, answer};
ghost use Rattle.contributions.specs.Sample.{sample_ladder};

use refusal::Refusal;
use transform_1d::Kind;

// The lowest row that applies, by the lengths of the buffers.
// Kept: each length is a number of its own, which one line measures; a struct of them would be made for this one call.
#[tactic(auto, unfolding(crate::specs::Sample::sample_ladder))]
pub(crate) fn sample_refusal(
    kind: Kind,
    n: usize,
    row: usize,
    column: usize,
    coeff: usize,
    out: usize,
) -> Result<(), Refusal>
    ensures { answer result ≡ sample_ladder (refused tt) (accepted tt) kind n row column coeff out }
{
    refusal::check_size(n)?;
    refusal::check(transform_1d::dst_refused(kind, n), Refusal::DstSizeInvalid)?;
    refusal::check_room(n, coeff, Refusal::InputTooShort)?;
    refusal::check_room(n, out, Refusal::OutputTooShort)?;
    refusal::check(n <= row || n <= column, Refusal::PlaceOutside)
}
