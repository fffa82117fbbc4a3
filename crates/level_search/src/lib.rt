// Which levels give the coefficients of a block: scaling asked backwards, by a list or without one.
#![tactic(auto)]

ghost use Rattle.refusal.specs.Written.{Writes};
ghost use Rattle.scaling_values.specs.Given.{list_of};
ghost use Rattle.level_search.specs.Found.{levels_found};

use parameters::QpPrime;
use refusal::{Precision, Refusal};
use scaling_blocks::refuse;
use scaling_values::ScalingList;

mod block;
mod nearest;

// The levels of a block.
pub fn find_levels(
    coeff: &[i32],
    n: usize,
    qp_prime: QpPrime,
    precision: Precision,
    list: ScalingList,
    levels: &mut [i32],
) -> Result<(), Refusal>
    ensures { Writes result levels.new (levels_found (list_of list.entry) n qp_prime.0 precision.bit_depth precision.extended coeff.now levels.old) }
{
    let by = refuse::block_params(
        false,
        n,
        qp_prime,
        precision,
        list.len(),
        coeff.len(),
        levels.len(),
    )?;
    let dequant = by.dequant;
    block::find_block(coeff, n, dequant, list, levels)
}
