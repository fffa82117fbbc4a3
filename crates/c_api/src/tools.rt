// The block tools of the range extensions, and the levels that give a block's coefficients.
// Kept: C has a function with a list and one without, hands over depth and flag, and a list and its DC, apart, and the way of accumulation as a number.
ghost use Rattle.std.specs.Prelude.{◌≡◌};
ghost use Rattle.h265.specs.ScalingFactor.ScalingList.{flat, listed};
ghost use Rattle.block_tool_rules.specs.Residual.{skip_residual, bypass_residual};
ghost use Rattle.level_search.specs.Found.{levels_found};
ghost use Rattle.c_api.specs.Blocks.{Writes, CountWrites};
ghost use Rattle.c_api.specs.Tools.{accumulate_of};

use crate::{Answered, CountAnswered};
use block_tools::Accumulate;
use parameters::QpPrime;
use refusal::Precision;
use scaling_values::ScalingList;

// The way of accumulation that C hands over as a number: 0, 1, or any other.
// Kept: a `From<u8>` can only stand where `Accumulate` is declared, and that any number above 1 is `DownColumns` is C's alone.
fn accumulate_of(accumulate: u8) -> Accumulate
    ensures { result ≡ accumulate_of accumulate }
{
    match accumulate {
        0 => Accumulate::Off,
        1 => Accumulate::AlongRows,
        _ => Accumulate::DownColumns,
    }
}

// The residuals of transform skip without a list, rotated and accumulated.
pub fn residual_transform_skip_residual(
    levels: &[i32],
    n: usize,
    qp_prime: i32,
    bit_depth: u8,
    extended_precision: bool,
    rotate: bool,
    accumulate: u8,
    out: &mut [i32],
) -> CountAnswered
    ensures { CountWrites result out.new (skip_residual (accumulate_of accumulate) rotate flat n qp_prime bit_depth extended_precision levels.now out.old) }
{
    let precision = Precision::new(bit_depth, extended_precision);
    block_tools::transform_skip_residual(
        levels,
        n,
        QpPrime(qp_prime),
        precision,
        ScalingList::Flat,
        rotate,
        accumulate_of(accumulate),
        out,
    )
    .into()
}

// The same with a list.
pub fn residual_transform_skip_scaled_residual(
    levels: &[i32],
    n: usize,
    qp_prime: i32,
    bit_depth: u8,
    extended_precision: bool,
    list: &[u8],
    dc: u8,
    rotate: bool,
    accumulate: u8,
    out: &mut [i32],
) -> CountAnswered
    ensures { CountWrites result out.new (skip_residual (accumulate_of accumulate) rotate (listed list.now dc) n qp_prime bit_depth extended_precision levels.now out.old) }
{
    let precision = Precision::new(bit_depth, extended_precision);
    block_tools::transform_skip_residual(
        levels,
        n,
        QpPrime(qp_prime),
        precision,
        ScalingList::Listed(list, dc),
        rotate,
        accumulate_of(accumulate),
        out,
    )
    .into()
}

// Levels that are the residual, rotated and accumulated.
pub fn residual_bypass_residual(
    levels: &[i32],
    n: usize,
    bit_depth: u8,
    extended_precision: bool,
    rotate: bool,
    accumulate: u8,
    out: &mut [i32],
) -> Answered
    ensures { Writes result out.new (bypass_residual (accumulate_of accumulate) rotate n bit_depth extended_precision levels.now out.old) }
{
    let precision = Precision::new(bit_depth, extended_precision);
    block_tools::bypass_residual(
        levels,
        n,
        precision,
        rotate,
        accumulate_of(accumulate),
        out,
    ).into()
}

// The levels that give the coefficients of a block without a list.
pub fn residual_find_levels(
    coeff: &[i32],
    n: usize,
    qp_prime: i32,
    bit_depth: u8,
    extended_precision: bool,
    levels: &mut [i32],
) -> Answered
    ensures { Writes result levels.new (levels_found flat n qp_prime bit_depth extended_precision coeff.now levels.old) }
{
    let precision = Precision::new(bit_depth, extended_precision);
    level_search::find_levels(
        coeff,
        n,
        QpPrime(qp_prime),
        precision,
        ScalingList::Flat,
        levels,
    )
    .into()
}

// The same with a list.
pub fn residual_find_levels_scaled(
    coeff: &[i32],
    n: usize,
    qp_prime: i32,
    bit_depth: u8,
    extended_precision: bool,
    list: &[u8],
    dc: u8,
    levels: &mut [i32],
) -> Answered
    ensures { Writes result levels.new (levels_found (listed list.now dc) n qp_prime bit_depth extended_precision coeff.now levels.old) }
{
    let precision = Precision::new(bit_depth, extended_precision);
    level_search::find_levels(
        coeff,
        n,
        QpPrime(qp_prime),
        precision,
        ScalingList::Listed(list, dc),
        levels,
    )
    .into()
}
