// The inverse transforms of whole blocks: the DCT with a column count, and the DST of size 4.
// Kept: C has the six functions under the names of the ported Rust: DCT and DST, plain, extended and 16-bit.
ghost use Rattle.transform_1d.specs.declared.Kind.TheVariants.{Dct, Dst};
ghost use Rattle.refusal.specs.Condition.{bits16, bits32};
ghost use Rattle.transform_blocks.specs.Blocks.{inverted, plain_range, extended_range};
ghost use Rattle.c_api.specs.Blocks.{Writes};

use c_api::Answered;

// The inverse DCT, 32-bit.
#[unsafe(no_mangle)]
pub extern "C" fn residual_inv_transform_into_scalar(
    coeff: &[i32],
    n: usize,
    bit_depth: u8,
    nx: usize,
    out: &mut [i32],
) -> Answered
    ensures { Writes result out.new (inverted bits32 Dct n bit_depth plain_range nx coeff.now out.old) }
{
    c_api::residual_inv_transform_into_scalar(coeff, n, bit_depth, nx, out)
}

// The inverse DCT, extended precision, 32-bit.
#[unsafe(no_mangle)]
pub extern "C" fn residual_inv_transform_into_scalar_extended(
    coeff: &[i32],
    n: usize,
    bit_depth: u8,
    nx: usize,
    out: &mut [i32],
) -> Answered
    ensures { Writes result out.new (inverted bits32 Dct n bit_depth extended_range nx coeff.now out.old) }
{
    c_api::residual_inv_transform_into_scalar_extended(coeff, n, bit_depth, nx, out)
}

// The inverse DCT, 16-bit.
#[unsafe(no_mangle)]
pub extern "C" fn residual_inv_transform_into_scalar16(
    coeff: &[i16],
    n: usize,
    bit_depth: u8,
    nx: usize,
    out: &mut [i16],
) -> Answered
    ensures { Writes result out.new (inverted bits16 Dct n bit_depth plain_range nx coeff.now out.old) }
{
    c_api::residual_inv_transform_into_scalar16(coeff, n, bit_depth, nx, out)
}

// The inverse DST of size 4, 32-bit.
#[unsafe(no_mangle)]
pub extern "C" fn residual_inv_transform_dst_into_scalar(
    coeff: &[i32],
    bit_depth: u8,
    out: &mut [i32],
) -> Answered
    ensures { Writes result out.new (inverted bits32 Dst 4 bit_depth plain_range 4 coeff.now out.old) }
{
    c_api::residual_inv_transform_dst_into_scalar(coeff, bit_depth, out)
}

// The inverse DST of size 4, extended precision, 32-bit.
#[unsafe(no_mangle)]
pub extern "C" fn residual_inv_transform_dst_into_scalar_extended(
    coeff: &[i32],
    bit_depth: u8,
    out: &mut [i32],
) -> Answered
    ensures { Writes result out.new (inverted bits32 Dst 4 bit_depth extended_range 4 coeff.now out.old) }
{
    c_api::residual_inv_transform_dst_into_scalar_extended(coeff, bit_depth, out)
}

// The inverse DST of size 4, 16-bit.
#[unsafe(no_mangle)]
pub extern "C" fn residual_inv_transform_dst_into_scalar16(
    coeff: &[i16],
    bit_depth: u8,
    out: &mut [i16],
) -> Answered
    ensures { Writes result out.new (inverted bits16 Dst 4 bit_depth plain_range 4 coeff.now out.old) }
{
    c_api::residual_inv_transform_dst_into_scalar16(coeff, bit_depth, out)
}
