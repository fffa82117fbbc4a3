// The record that points at the caller's list, beside DC and size, with its one lookup.
ghost use Rattle.std.specs.Prelude.{◌≡◌};
ghost use Rattle.refusal.specs.Outcome.{outcome};
ghost use Rattle.scaling.specs.Factor.{scaling_coeff};

use crate::{ScalingMatrix, factor};
use refusal::Refusal;

// m at an index, by the record.
pub fn coeff<'a>(matrix: ScalingMatrix<'a>, index: usize) -> Result<u8, Refusal>
    ensures { outcome 0 result ≡ scaling_coeff matrix.entry.list.now matrix.entry.dc matrix.entry.size index }
{
    factor::scaling_coeff(matrix.list, matrix.dc, matrix.size, index)
}
