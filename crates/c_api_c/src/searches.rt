// Which edits give the wanted samples of a block: of coefficients, and of levels without a list and with one. Which coefficient makes a sample.
// Kept: C has a function with a list and one without, hands over depth and flag, and a list and its DC, apart, the kind as a flag, and lends target, flags
// and both outputs apart.
ghost use Rattle.h265.specs.ScalingFactor.ScalingList.{flat, listed};
ghost use Rattle.edit_search.specs.Found.{edits_found};
ghost use Rattle.level_edits.specs.Levels.{level_edits_found};
ghost use Rattle.contributions.specs.Sample.{contributed};
ghost use Rattle.c_api.specs.Blocks.{Writes};
ghost use Rattle.c_api.specs.Edits.{kind_of};
ghost use Rattle.c_api.specs.Searches.{Finds};

use c_api::Answered;

// The least and the most value of each coefficient.
#[unsafe(no_mangle)]
pub extern "C" fn residual_find_edits(
    dst: bool,
    n: usize,
    bit_depth: u8,
    extended_precision: bool,
    coeff: &[i32],
    target: &[i32],
    wanted: &[u8],
    least: &mut [i32],
    most: &mut [i32],
) -> Answered
    ensures { Finds result least.new most.new (edits_found (kind_of dst) n bit_depth extended_precision coeff.now target.now wanted.now least.old most.old) }
{
    c_api::residual_find_edits(
        dst,
        n,
        bit_depth,
        extended_precision,
        coeff,
        target,
        wanted,
        least,
        most,
    )
}

// The least and the most of each level.
#[unsafe(no_mangle)]
pub extern "C" fn residual_find_level_edits(
    dst: bool,
    n: usize,
    qp_prime: i32,
    bit_depth: u8,
    extended_precision: bool,
    levels: &[i32],
    target: &[i32],
    wanted: &[u8],
    least: &mut [i32],
    most: &mut [i32],
) -> Answered
    ensures { Finds result least.new most.new (level_edits_found flat (kind_of dst) n qp_prime bit_depth extended_precision levels.now target.now wanted.now least.old most.old) }
{
    c_api::residual_find_level_edits(
        dst,
        n,
        qp_prime,
        bit_depth,
        extended_precision,
        levels,
        target,
        wanted,
        least,
        most,
    )
}

// The same with a list.
#[unsafe(no_mangle)]
pub extern "C" fn residual_find_level_edits_scaled(
    dst: bool,
    n: usize,
    qp_prime: i32,
    bit_depth: u8,
    extended_precision: bool,
    list: &[u8],
    dc: u8,
    levels: &[i32],
    target: &[i32],
    wanted: &[u8],
    least: &mut [i32],
    most: &mut [i32],
) -> Answered
    ensures { Finds result least.new most.new (level_edits_found (listed list.now dc) (kind_of dst) n qp_prime bit_depth extended_precision levels.now target.now wanted.now least.old most.old) }
{
    c_api::residual_find_level_edits_scaled(
        dst,
        n,
        qp_prime,
        bit_depth,
        extended_precision,
        list,
        dc,
        levels,
        target,
        wanted,
        least,
        most,
    )
}

// What each coefficient adds to one sample.
#[unsafe(no_mangle)]
pub extern "C" fn residual_contributions(
    dst: bool,
    n: usize,
    row: usize,
    column: usize,
    coeff: &[i32],
    out: &mut [i64],
) -> Answered
    ensures { Writes result out.new (contributed (kind_of dst) n row column coeff.now out.old) }
{
    c_api::residual_contributions(dst, n, row, column, coeff, out)
}
