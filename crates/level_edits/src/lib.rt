// Which level makes the mark go? For each index of a block of levels the levels with which the residual has a target at every wanted sample, without a list and with one.
#![tactic(auto)]

ghost use Rattle.edit_search.specs.Found.{Finds};
ghost use Rattle.scaling_values.specs.Given.{list_of};
ghost use Rattle.level_edits.specs.Levels.{level_edits_found};

use parameters::QpPrime;
use refusal::{Precision, Refusal};
use scaling_values::ScalingList;
use transform_1d::Kind;

mod block;
mod places;

// The least and the most level at every index.
// Kept: target and wanted, least and most are slices of their own, here and in block.rt: C lends each with a length of its own, and rows 6 and 7 measure each.
// Kept: kind, size and precision apart, here and in block.rt: refusals, numbers of the block, range and search each take some of them, and would take a struct apart.
pub fn find_level_edits(
    kind: Kind,
    n: usize,
    qp_prime: QpPrime,
    precision: Precision,
    list: ScalingList,
    levels: &[i32],
    target: &[i32],
    wanted: &[u8],
    least: &mut [i32],
    most: &mut [i32],
) -> Result<(), Refusal>
    ensures { Finds result least.new most.new (level_edits_found (list_of list.entry) kind n qp_prime.0 precision.bit_depth precision.extended levels.now target.now wanted.now least.old most.old) }
{
    edit_blocks::refuse::edit_refusal(
        kind,
        n,
        precision.bit_depth,
        list.len(),
        levels.len(),
        target.len(),
        wanted.len(),
        least.len(),
        most.len(),
    )?;
    let by = parameters::dequant_params(n, qp_prime, precision)?;
    block::find_block(
        kind, n, precision, by, list, levels, target, wanted, least, most,
    );
    Ok(())
}
