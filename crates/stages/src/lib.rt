// The inverse transform of a block in two stages, in the plain range: R = 15, so that data are 16 bits wide and sums 32.
// Internal: no refusal; callers meet each `requires`.
#![tactic(auto)]

ghost use Rattle.std.specs.Prelude.{◌≡◌, ◌*◌, ◌≤◌, ◌-◌, T, length, map};
ghost use Rattle.integers.specs.Lists.{overwrite};
ghost use Rattle.h265.specs.Range.{is_size};
ghost use Rattle.h265.specs.Matrix.{trans_matrix};
ghost use Rattle.h265.specs.Transform.{row_order, residual};
ghost use Rattle.transform_1d.specs.MatrixOf.{matrix_of};
ghost use Rattle.stages.specs.Plain.{PlainNeeds};
ghost use Rattle.stages.specs.Passes.{shifted_residual, BlockNeeds};

use crate::sample::Sample;
use crate::scan::first_row_alone;
use tiles::{Whole8, Whole16};
use tiles_32::Whole32;
use tiles_quarter::{Quarter8, Quarter16, Quarter32};
use transform_1d::{Kind, stage_two_shift};

pub mod sample; // the two widths of coefficients and residuals
mod scan; // whether the first row is the only one
mod blocks; // both stages of a block

// The DCT of a block from 8 points on.
// Kept: `V.least_shift ≤ s` beside `BlockNeeds`, here and in blocks.rt: it is asked of the width, and all else of the block.
// Kept: a `match` on the size: its arms name the types and const arguments of a size, which no value carries.
#[inline(never)]
fn dct_sized<V: Sample>(coeff: &[V], n: usize, nx: usize, s: u32, out: &mut [V])
    requires { T (is_size n) × (8 ≤ n) × BlockNeeds n s nx (map V.value coeff.now) (length out.old) × (V.least_shift ≤ s) }
    ensures { map V.value out.new ≡ overwrite (n * n) (row_order n (shifted_residual (trans_matrix n) n s nx (map V.value coeff.now))) (map V.value out.old) }
{
    match n {
        8 => blocks::block_dct::<V, Whole8, Quarter8, 64, 32>(coeff, nx, s, out),
        16 => blocks::block_dct::<V, Whole16, Quarter16, 256, 64>(coeff, nx, s, out),
        _ => blocks::block_dct::<V, Whole32, Quarter32, 1024, 256>(coeff, nx, s, out),
    }
}

// The DCT of a block of any size; one coefficient alone fills it.
// Kept: 4 points here and not in `dct_sized`, which is not put inside: for its buffers the smallest block, and one coefficient, would save and restore registers that they have no use for.
#[inline(always)]
fn dct_plain<V: Sample>(coeff: &[V], n: usize, nx: usize, s: u32, out: &mut [V])
    requires { T (is_size n) × BlockNeeds n s nx (map V.value coeff.now) (length out.old) × (V.least_shift ≤ s) }
    ensures { map V.value out.new ≡ overwrite (n * n) (row_order n (shifted_residual (trans_matrix n) n s nx (map V.value coeff.now))) (map V.value out.old) }
{
    if nx == 1 && first_row_alone(coeff, n) {
        blocks::dc_fill(coeff, n, s, out);
    } else if n == 4 {
        blocks::block_4(Kind::Dct, coeff, nx, s, out);
    } else {
        dct_sized(coeff, n, nx, s, out);
    }
}

// The residual of a block at depths at which it fits: in 16 bits at 8 and 9.
// Kept: kind, size and depth apart: the shift and the stages each take some of them, and a struct would be taken apart here.
#[inline(always)]
pub fn residual_plain<V: Sample>(
    kind: Kind,
    n: usize,
    bit_depth: u8,
    nx: usize,
    coeff: &[V],
    out: &mut [V],
)
    requires { PlainNeeds kind n bit_depth nx (map V.value coeff.now) (length out.old) × (V.least_shift ≤ 20 - bit_depth) }
    ensures { map V.value out.new ≡ overwrite (n * n) (row_order n (residual (matrix_of kind n) n bit_depth 15 nx (map V.value coeff.now))) (map V.value out.old) }
{
    let s = stage_two_shift(bit_depth, 15);
    match kind {
        Kind::Dct => dct_plain(coeff, n, nx, s, out),
        Kind::Dst => blocks::block_4(kind, coeff, nx, s, out),
    }
}
