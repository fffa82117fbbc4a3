// Scaling and transform skip: m, one level, and blocks at two widths.
// Kept: C has each function under the name of the ported Rust, by the width of its output and with a list or without one, and hands over depth and flag, and a list and its DC, apart.
ghost use Rattle.std.specs.Prelude.{◌≡◌};
ghost use Rattle.h265.specs.ScalingFactor.ScalingList.{flat, listed};
ghost use Rattle.refusal.specs.Condition.{bits16, bits32};
ghost use Rattle.scaling_blocks.specs.Blocks.{dequantized, transform_skipped};
ghost use Rattle.scaling.specs.Factor.{scaling_coeff};
ghost use Rattle.scaling.specs.Level.{scaled_level};
ghost use Rattle.c_api.specs.Answers.{of_number, of_level};
ghost use Rattle.c_api.specs.Blocks.{CountWrites};

use crate::{CountAnswered, LevelAnswered, NumberAnswered};
use parameters::QpPrime;
use refusal::Precision;

// m at an index of a block.
pub fn residual_scaling_coeff(list: &[u8], dc: u8, n: usize, index: usize) -> NumberAnswered
    ensures { of_number result ≡ scaling_coeff list.now dc n index }
{
    scaling::scaling_coeff(list, dc, n, index)
        .map(u32::from)
        .into()
}

// One level of a block, scaled: its coefficient, whether the level was limited, and whether the result was.
pub fn residual_scale_level(
    level: i32,
    m: u8,
    n: usize,
    qp_prime: i32,
    bit_depth: u8,
    extended_precision: bool,
) -> LevelAnswered
    ensures { of_level result ≡ scaled_level level m n qp_prime bit_depth extended_precision }
{
    let precision = Precision::new(bit_depth, extended_precision);
    let qp = QpPrime(qp_prime);
    scaling::scale_level(level, m, n, qp, precision).into()
}

// The coefficients of a block without a list, 32-bit, and how many were limited.
pub fn residual_dequantize_into_scalar_i32(
    levels: &[i32],
    n: usize,
    qp_prime: i32,
    bit_depth: u8,
    extended_precision: bool,
    out: &mut [i32],
) -> CountAnswered
    ensures { CountWrites result out.new (dequantized bits32 flat n qp_prime bit_depth extended_precision levels.now out.old) }
{
    let precision = Precision::new(bit_depth, extended_precision);
    scaling_wide::dequantize_into_scalar_i32(levels, n, QpPrime(qp_prime), precision, out).into()
}

// The coefficients of a block with a list, 32-bit, and how many were limited.
pub fn residual_dequantize_scaled_into_scalar_i32(
    levels: &[i32],
    n: usize,
    qp_prime: i32,
    bit_depth: u8,
    extended_precision: bool,
    list: &[u8],
    dc: u8,
    out: &mut [i32],
) -> CountAnswered
    ensures { CountWrites result out.new (dequantized bits32 (listed list.now dc) n qp_prime bit_depth extended_precision levels.now out.old) }
{
    let precision = Precision::new(bit_depth, extended_precision);
    scaling_wide::dequantize_scaled_into_scalar_i32(
        levels,
        n,
        QpPrime(qp_prime),
        precision,
        list,
        dc,
        out,
    ).into()
}

// The residuals of a block without a list, 32-bit, and how many coefficients were limited.
pub fn residual_dequantize_transform_skip_into_scalar_i32(
    levels: &[i32],
    n: usize,
    qp_prime: i32,
    bit_depth: u8,
    extended_precision: bool,
    out: &mut [i32],
) -> CountAnswered
    ensures { CountWrites result out.new (transform_skipped bits32 flat n qp_prime bit_depth extended_precision levels.now out.old) }
{
    let precision = Precision::new(bit_depth, extended_precision);
    scaling_wide::dequantize_transform_skip_into_scalar_i32(
        levels,
        n,
        QpPrime(qp_prime),
        precision,
        out,
    ).into()
}

// The residuals of a block with a list, 32-bit, and how many coefficients were limited.
pub fn residual_dequantize_transform_skip_scaled_into_scalar_i32(
    levels: &[i32],
    n: usize,
    qp_prime: i32,
    bit_depth: u8,
    extended_precision: bool,
    list: &[u8],
    dc: u8,
    out: &mut [i32],
) -> CountAnswered
    ensures { CountWrites result out.new (transform_skipped bits32 (listed list.now dc) n qp_prime bit_depth extended_precision levels.now out.old) }
{
    let precision = Precision::new(bit_depth, extended_precision);
    scaling_wide::dequantize_transform_skip_scaled_into_scalar_i32(
        levels,
        n,
        QpPrime(qp_prime),
        precision,
        list,
        dc,
        out,
    ).into()
}

// The coefficients of a block without a list, 16-bit, and how many were limited.
pub fn residual_dequantize_into_scalar_i16(
    levels: &[i32],
    n: usize,
    qp_prime: i32,
    bit_depth: u8,
    extended_precision: bool,
    out: &mut [i16],
) -> CountAnswered
    ensures { CountWrites result out.new (dequantized bits16 flat n qp_prime bit_depth extended_precision levels.now out.old) }
{
    let precision = Precision::new(bit_depth, extended_precision);
    scaling_narrow::dequantize_into_scalar_i16(levels, n, QpPrime(qp_prime), precision, out).into()
}

// The coefficients of a block with a list, 16-bit, and how many were limited.
pub fn residual_dequantize_scaled_into_scalar_i16(
    levels: &[i32],
    n: usize,
    qp_prime: i32,
    bit_depth: u8,
    extended_precision: bool,
    list: &[u8],
    dc: u8,
    out: &mut [i16],
) -> CountAnswered
    ensures { CountWrites result out.new (dequantized bits16 (listed list.now dc) n qp_prime bit_depth extended_precision levels.now out.old) }
{
    let precision = Precision::new(bit_depth, extended_precision);
    scaling_narrow::dequantize_scaled_into_scalar_i16(
        levels,
        n,
        QpPrime(qp_prime),
        precision,
        list,
        dc,
        out,
    ).into()
}

// The residuals of a block without a list, 16-bit, and how many coefficients were limited.
pub fn residual_dequantize_transform_skip_into_scalar_i16(
    levels: &[i32],
    n: usize,
    qp_prime: i32,
    bit_depth: u8,
    extended_precision: bool,
    out: &mut [i16],
) -> CountAnswered
    ensures { CountWrites result out.new (transform_skipped bits16 flat n qp_prime bit_depth extended_precision levels.now out.old) }
{
    let precision = Precision::new(bit_depth, extended_precision);
    scaling_narrow::dequantize_transform_skip_into_scalar_i16(
        levels,
        n,
        QpPrime(qp_prime),
        precision,
        out,
    ).into()
}

// The residuals of a block with a list, 16-bit, and how many coefficients were limited.
pub fn residual_dequantize_transform_skip_scaled_into_scalar_i16(
    levels: &[i32],
    n: usize,
    qp_prime: i32,
    bit_depth: u8,
    extended_precision: bool,
    list: &[u8],
    dc: u8,
    out: &mut [i16],
) -> CountAnswered
    ensures { CountWrites result out.new (transform_skipped bits16 (listed list.now dc) n qp_prime bit_depth extended_precision levels.now out.old) }
{
    let precision = Precision::new(bit_depth, extended_precision);
    scaling_narrow::dequantize_transform_skip_scaled_into_scalar_i16(
        levels,
        n,
        QpPrime(qp_prime),
        precision,
        list,
        dc,
        out,
    ).into()
}
