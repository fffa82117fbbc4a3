// The inverse transforms of whole blocks. Refuses 1, 2, 3 (16-bit output), 6, 7, and 9 or 19, lowest number first; 19 has the place of 9.
#![tactic(auto)]

ghost use Rattle.std.specs.Prelude.{true, false};
ghost use Rattle.refusal.specs.Written.{Writes};
ghost use Rattle.transform_1d.specs.declared.Kind.TheVariants.{Dct, Dst};
ghost use Rattle.refusal.specs.Condition.{bits16, bits32};
ghost use Rattle.transform_blocks.specs.Blocks.{plain_range, extended_range, inverted};

use refusal::{Precision, Refusal};
use transform_1d::Kind;

// Kept: six entry points, under the names of the ported Rust, which C has.
// The inverse DCT of a block, plain range.
pub fn inv_transform_into_scalar(
    coeff: &[i32],
    n: usize,
    bit_depth: u8,
    nx: usize,
    out: &mut [i32],
) -> Result<(), Refusal>
    ensures { Writes result out.new (inverted bits32 Dct n bit_depth plain_range nx coeff.now out.old) }
{
    let plain = Precision::new(bit_depth, false);
    transform_blocks::invert_32(Kind::Dct, n, plain, nx, coeff, out)
}

// The inverse DCT of a block, extended precision.
pub fn inv_transform_into_scalar_extended(
    coeff: &[i32],
    n: usize,
    bit_depth: u8,
    nx: usize,
    out: &mut [i32],
) -> Result<(), Refusal>
    ensures { Writes result out.new (inverted bits32 Dct n bit_depth extended_range nx coeff.now out.old) }
{
    let extended = Precision::new(bit_depth, true);
    transform_blocks::invert_32(Kind::Dct, n, extended, nx, coeff, out)
}

// The inverse DCT of a block, 16 bits wide.
pub fn inv_transform_into_scalar16(
    coeff: &[i16],
    n: usize,
    bit_depth: u8,
    nx: usize,
    out: &mut [i16],
) -> Result<(), Refusal>
    ensures { Writes result out.new (inverted bits16 Dct n bit_depth plain_range nx coeff.now out.old) }
{
    transform_blocks::invert_16(Kind::Dct, n, bit_depth, nx, coeff, out)
}

// The inverse 4×4 DST, plain range; it reads all four columns.
pub fn inv_transform_dst_into_scalar(
    coeff: &[i32],
    bit_depth: u8,
    out: &mut [i32],
) -> Result<(), Refusal>
    ensures { Writes result out.new (inverted bits32 Dst 4 bit_depth plain_range 4 coeff.now out.old) }
{
    let plain = Precision::new(bit_depth, false);
    transform_blocks::invert_32(Kind::Dst, 4, plain, 4, coeff, out)
}

// The inverse 4×4 DST, extended precision.
pub fn inv_transform_dst_into_scalar_extended(
    coeff: &[i32],
    bit_depth: u8,
    out: &mut [i32],
) -> Result<(), Refusal>
    ensures { Writes result out.new (inverted bits32 Dst 4 bit_depth extended_range 4 coeff.now out.old) }
{
    let extended = Precision::new(bit_depth, true);
    transform_blocks::invert_32(Kind::Dst, 4, extended, 4, coeff, out)
}

// The inverse 4×4 DST, 16 bits wide.
pub fn inv_transform_dst_into_scalar16(
    coeff: &[i16],
    bit_depth: u8,
    out: &mut [i16],
) -> Result<(), Refusal>
    ensures { Writes result out.new (inverted bits16 Dst 4 bit_depth plain_range 4 coeff.now out.old) }
{
    transform_blocks::invert_16(Kind::Dst, 4, bit_depth, 4, coeff, out)
}
