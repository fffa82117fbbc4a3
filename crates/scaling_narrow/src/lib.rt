// Scaling and transform skip of whole blocks with 16-bit output, with and without a list, at depths 8 and 9.
#![tactic(auto)]

ghost use Rattle.std.specs.Prelude.{◌≡◌};
ghost use Rattle.h265.specs.ScalingFactor.ScalingList.{flat, listed};
ghost use Rattle.refusal.specs.Condition.{bits16};
ghost use Rattle.scaling_blocks.specs.Blocks.{dequantized, transform_skipped, CountWrites};

use parameters::QpPrime;
use refusal::{Precision, Refusal};
use scaling_blocks::blocks;
use scaling_values::ScalingList;

// Kept: a function for each width, with a list and without one, and entries and DC apart: C has each under the name that the ported Rust gives it.

// The coefficients of a block without a list, and how many were limited.
pub fn dequantize_into_scalar_i16(
    levels: &[i32],
    n: usize,
    qp_prime: QpPrime,
    precision: Precision,
    out: &mut [i16],
) -> Result<u16, Refusal>
    ensures { CountWrites result out.new (dequantized bits16 flat n qp_prime.0 precision.bit_depth precision.extended levels.now out.old) }
{
    blocks::dequantize(levels, n, qp_prime, precision, ScalingList::Flat, out)
}

// The coefficients of a block with a list, and how many were limited.
pub fn dequantize_scaled_into_scalar_i16(
    levels: &[i32],
    n: usize,
    qp_prime: QpPrime,
    precision: Precision,
    list: &[u8],
    dc: u8,
    out: &mut [i16],
) -> Result<u16, Refusal>
    ensures { CountWrites result out.new (dequantized bits16 (listed list.now dc) n qp_prime.0 precision.bit_depth precision.extended levels.now out.old) }
{
    let given = ScalingList::Listed(list, dc);
    blocks::dequantize(levels, n, qp_prime, precision, given, out)
}

// The residuals of a block without a list, and how many of its coefficients were limited.
pub fn dequantize_transform_skip_into_scalar_i16(
    levels: &[i32],
    n: usize,
    qp_prime: QpPrime,
    precision: Precision,
    out: &mut [i16],
) -> Result<u16, Refusal>
    ensures { CountWrites result out.new (transform_skipped bits16 flat n qp_prime.0 precision.bit_depth precision.extended levels.now out.old) }
{
    blocks::transform_skip(levels, n, qp_prime, precision, ScalingList::Flat, out)
}

// The residuals of a block with a list, and how many of its coefficients were limited.
pub fn dequantize_transform_skip_scaled_into_scalar_i16(
    levels: &[i32],
    n: usize,
    qp_prime: QpPrime,
    precision: Precision,
    list: &[u8],
    dc: u8,
    out: &mut [i16],
) -> Result<u16, Refusal>
    ensures { CountWrites result out.new (transform_skipped bits16 (listed list.now dc) n qp_prime.0 precision.bit_depth precision.extended levels.now out.old) }
{
    let given = ScalingList::Listed(list, dc);
    blocks::transform_skip(levels, n, qp_prime, precision, given, out)
}
