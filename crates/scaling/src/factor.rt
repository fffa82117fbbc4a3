// The scaling factor m of a list.
ghost use Rattle.std.specs.Prelude.{◌≡◌};
ghost use Rattle.refusal.specs.Outcome.{outcome};
ghost use Rattle.scaling.specs.Factor.{scaling_coeff};

use refusal::Refusal;
use scaling_values::factor::listed_at;

// m at an index of a block, for every list, size and index.
// Kept: entries and DC apart, as the ported Rust and C give them.
#[tactic(auto, using(h265::proofs::RangeLaws::size_square), unfolding(crate::specs::Factor::scaling_coeff))]
pub fn scaling_coeff(list: &[u8], dc: u8, n: usize, index: usize) -> Result<u8, Refusal>
    ensures { outcome 0 result ≡ scaling_coeff list.now dc n index }
{
    refusal::check_size(n)?;
    refusal::check_list(list.len())?;
    refusal::check(n * n <= index, Refusal::PlaceOutside)?;
    Ok(listed_at(list, dc, n, index))
}
