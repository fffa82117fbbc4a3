// The block tools of the range extensions, and the levels that give a block's coefficients.
// Kept: C has a function with a list and one without, hands over depth and flag, and a list and its DC, apart, and the way of accumulation as a number.
ghost use Rattle.h265.specs.ScalingFactor.ScalingList.{flat, listed};
ghost use Rattle.block_tool_rules.specs.Residual.{skip_residual, bypass_residual};
ghost use Rattle.level_search.specs.Found.{levels_found};
ghost use Rattle.c_api.specs.Blocks.{Writes, CountWrites};
ghost use Rattle.c_api.specs.Tools.{accumulate_of};

use c_api::{Answered, CountAnswered};

// The residuals of transform skip without a list, rotated and accumulated.
#[unsafe(no_mangle)]
pub extern "C" fn residual_transform_skip_residual(
    levels: &[i32],
    n: usize,
    qp_prime: i32,
    bit_depth: u8,
    extended_precision: bool,
    rotate: bool,
    accumulate: u8,
    out: &mut [i32],
) -> CountAnswered
    ensures { CountWrites result out.new (skip_residual (accumulate_of accumulate) rotate flat n qp_prime bit_depth extended_precision levels.now out.old) }
{
    c_api::residual_transform_skip_residual(
        levels,
        n,
        qp_prime,
        bit_depth,
        extended_precision,
        rotate,
        accumulate,
        out,
    )
}

// The same with a list.
#[unsafe(no_mangle)]
pub extern "C" fn residual_transform_skip_scaled_residual(
    levels: &[i32],
    n: usize,
    qp_prime: i32,
    bit_depth: u8,
    extended_precision: bool,
    list: &[u8],
    dc: u8,
    rotate: bool,
    accumulate: u8,
    out: &mut [i32],
) -> CountAnswered
    ensures { CountWrites result out.new (skip_residual (accumulate_of accumulate) rotate (listed list.now dc) n qp_prime bit_depth extended_precision levels.now out.old) }
{
    c_api::residual_transform_skip_scaled_residual(
        levels,
        n,
        qp_prime,
        bit_depth,
        extended_precision,
        list,
        dc,
        rotate,
        accumulate,
        out,
    )
}

// Levels that are the residual, rotated and accumulated.
#[unsafe(no_mangle)]
pub extern "C" fn residual_bypass_residual(
    levels: &[i32],
    n: usize,
    bit_depth: u8,
    extended_precision: bool,
    rotate: bool,
    accumulate: u8,
    out: &mut [i32],
) -> Answered
    ensures { Writes result out.new (bypass_residual (accumulate_of accumulate) rotate n bit_depth extended_precision levels.now out.old) }
{
    c_api::residual_bypass_residual(
        levels,
        n,
        bit_depth,
        extended_precision,
        rotate,
        accumulate,
        out,
    )
}

// The levels that give the coefficients of a block without a list.
#[unsafe(no_mangle)]
pub extern "C" fn residual_find_levels(
    coeff: &[i32],
    n: usize,
    qp_prime: i32,
    bit_depth: u8,
    extended_precision: bool,
    levels: &mut [i32],
) -> Answered
    ensures { Writes result levels.new (levels_found flat n qp_prime bit_depth extended_precision coeff.now levels.old) }
{
    c_api::residual_find_levels(coeff, n, qp_prime, bit_depth, extended_precision, levels)
}

// The same with a list.
#[unsafe(no_mangle)]
pub extern "C" fn residual_find_levels_scaled(
    coeff: &[i32],
    n: usize,
    qp_prime: i32,
    bit_depth: u8,
    extended_precision: bool,
    list: &[u8],
    dc: u8,
    levels: &mut [i32],
) -> Answered
    ensures { Writes result levels.new (levels_found (listed list.now dc) n qp_prime bit_depth extended_precision coeff.now levels.old) }
{
    c_api::residual_find_levels_scaled(
        coeff,
        n,
        qp_prime,
        bit_depth,
        extended_precision,
        list,
        dc,
        levels,
    )
}
