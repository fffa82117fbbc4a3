// Which edits give the wanted samples of a block: of coefficients, and of levels without a list and with one. Which coefficient makes a sample.
// Kept: C has a function with a list and one without, hands over depth and flag, and a list and its DC, apart, the kind as a flag, and lends target, flags
// and both outputs apart.
ghost use Rattle.h265.specs.ScalingFactor.ScalingList.{flat, listed};
ghost use Rattle.edit_search.specs.Found.{edits_found};
ghost use Rattle.level_edits.specs.Levels.{level_edits_found};
ghost use Rattle.contributions.specs.Sample.{contributed};
ghost use Rattle.c_api.specs.Blocks.{Writes};
ghost use Rattle.c_api.specs.Edits.{kind_of};
ghost use Rattle.c_api.specs.Searches.{Finds};

use crate::{Answered, edits};
use parameters::QpPrime;
use refusal::Precision;
use scaling_values::ScalingList;

// The least and the most value of each coefficient.
pub fn residual_find_edits(
    dst: bool,
    n: usize,
    bit_depth: u8,
    extended_precision: bool,
    coeff: &[i32],
    target: &[i32],
    wanted: &[u8],
    least: &mut [i32],
    most: &mut [i32],
) -> Answered
    ensures { Finds result least.new most.new (edits_found (kind_of dst) n bit_depth extended_precision coeff.now target.now wanted.now least.old most.old) }
{
    let precision = Precision::new(bit_depth, extended_precision);
    edit_search::find_edits(
        edits::kind_of(dst),
        n,
        precision,
        coeff,
        target,
        wanted,
        least,
        most,
    )
    .into()
}

// The least and the most of each level.
pub fn residual_find_level_edits(
    dst: bool,
    n: usize,
    qp_prime: i32,
    bit_depth: u8,
    extended_precision: bool,
    levels: &[i32],
    target: &[i32],
    wanted: &[u8],
    least: &mut [i32],
    most: &mut [i32],
) -> Answered
    ensures { Finds result least.new most.new (level_edits_found flat (kind_of dst) n qp_prime bit_depth extended_precision levels.now target.now wanted.now least.old most.old) }
{
    let precision = Precision::new(bit_depth, extended_precision);
    level_edits::find_level_edits(
        edits::kind_of(dst),
        n,
        QpPrime(qp_prime),
        precision,
        ScalingList::Flat,
        levels,
        target,
        wanted,
        least,
        most,
    )
    .into()
}

// The same with a list.
pub fn residual_find_level_edits_scaled(
    dst: bool,
    n: usize,
    qp_prime: i32,
    bit_depth: u8,
    extended_precision: bool,
    list: &[u8],
    dc: u8,
    levels: &[i32],
    target: &[i32],
    wanted: &[u8],
    least: &mut [i32],
    most: &mut [i32],
) -> Answered
    ensures { Finds result least.new most.new (level_edits_found (listed list.now dc) (kind_of dst) n qp_prime bit_depth extended_precision levels.now target.now wanted.now least.old most.old) }
{
    let precision = Precision::new(bit_depth, extended_precision);
    level_edits::find_level_edits(
        edits::kind_of(dst),
        n,
        QpPrime(qp_prime),
        precision,
        ScalingList::Listed(list, dc),
        levels,
        target,
        wanted,
        least,
        most,
    )
    .into()
}

// What each coefficient adds to one sample.
pub fn residual_contributions(
    dst: bool,
    n: usize,
    row: usize,
    column: usize,
    coeff: &[i32],
    out: &mut [i64],
) -> Answered
    ensures { Writes result out.new (contributed (kind_of dst) n row column coeff.now out.old) }
{
    contributions::contributions(edits::kind_of(dst), n, row, column, coeff, out).into()
}
