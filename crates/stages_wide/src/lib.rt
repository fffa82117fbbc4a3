// Both stages on 32-bit data, for every range from 15 to 22: extended precision, and blocks that are edited. Every value is limited to the range
// as it is read.
// Internal: no refusal; callers meet each `requires`.
#![tactic(auto)]

mod parts; // values limited to the range
mod products; // lines of 4 points in 32-bit products
mod moves; // blocks turned over, columns taken and put
mod sizes; // stages of a block, over the size
mod blocks; // both stages of a block of any size, and a block with one coefficient

ghost use Rattle.std.specs.Prelude.{◌≡◌, ◌+◌, ◌*◌, ◌<◌, ◌≤◌, length};
ghost use Rattle.integers.specs.Lists.{overwrite};
ghost use Rattle.h265.specs.Transform.{row_order, intermediate, stage_two_shift, stage_two, residual};
ghost use Rattle.transform_1d.specs.MatrixOf.{matrix_of};
ghost use Rattle.stages_wide.specs.Wide.{column_replaced, limited_block, WideNeeds, DepthNeeds, CoeffsInRange};

use crate::blocks::stages_dct;
use crate::products::both_4;
use tiles::{Whole8, Whole16};
use tiles_32::Whole32;
use transform_1d::{Kind, stage_two_shift};

// Kept: a `match` on the size in each of the three that follow: its arms name the types and const arguments of a size, which no value carries.
// Kept: kind, size, depth and range apart, here and below: each function takes some of them, and would take a struct apart at its `match`.
// One column of the intermediate, every coefficient limited as it is read.
pub fn intermediate_column(
    kind: Kind,
    n: usize,
    range: u32,
    coeff: &[i32],
    column: usize,
    inter: &mut [i32],
)
    requires { WideNeeds kind n range (length coeff.now) (length inter.old) × (column < n) }
    ensures { inter.new ≡ column_replaced n column (λ m. intermediate (matrix_of kind n) n range (limited_block range n coeff.now) m column) inter.old }
{
    match n {
        4 => sizes::column_4(kind, coeff, range, column, inter),
        8 => sizes::column_8(coeff, range, column, inter),
        16 => sizes::column::<Whole16, 256, 16>(coeff, range, column, inter),
        _ => sizes::column::<Whole32, 1024, 32>(coeff, range, column, inter),
    }
}

// The whole intermediate, every coefficient limited as it is read.
pub fn intermediate_of(kind: Kind, n: usize, range: u32, coeff: &[i32], inter: &mut [i32])
    requires { WideNeeds kind n range (length coeff.now) (length inter.old) }
    ensures { inter.new ≡ overwrite (n * n) (row_order n (intermediate (matrix_of kind n) n range (limited_block range n coeff.now))) inter.old }
{
    match n {
        4 => sizes::columns_4(kind, coeff, range, inter),
        8 => sizes::columns::<Whole8, 64>(coeff, range, inter),
        16 => sizes::columns::<Whole16, 256>(coeff, range, inter),
        _ => sizes::columns::<Whole32, 1024>(coeff, range, inter),
    }
}

// The residual of an intermediate, every value limited as it is read. Nothing is limited after stage two.
pub fn residual_of(kind: Kind, n: usize, bit_depth: u8, range: u32, inter: &[i32], out: &mut [i32])
    requires { WideNeeds kind n range (length inter.now) (length out.old) × DepthNeeds bit_depth range }
    ensures { out.new ≡ overwrite (n * n) (row_order n (stage_two (matrix_of kind n) n (stage_two_shift bit_depth range) (limited_block range n inter.now))) out.old }
{
    let shift = stage_two_shift(bit_depth, range);
    match n {
        4 => sizes::rows_4(kind, inter, range, shift, out),
        8 => sizes::rows::<Whole8, 64>(inter, range, shift, out),
        16 => sizes::rows::<Whole16, 256>(inter, range, shift, out),
        _ => sizes::rows::<Whole32, 1024>(inter, range, shift, out),
    }
}

// One column of the intermediate and then the residual of the whole: what an edit takes.
pub fn column_and_residual(
    kind: Kind,
    n: usize,
    bit_depth: u8,
    range: u32,
    coeff: &[i32],
    column: usize,
    inter: &mut [i32],
    out: &mut [i32],
)
    requires { WideNeeds kind n range (length coeff.now) (length inter.old) × (column < n) × (n * n ≤ length out.old) × DepthNeeds bit_depth range }
    ensures { (inter.new ≡ column_replaced n column (λ m. intermediate (matrix_of kind n) n range (limited_block range n coeff.now) m column) inter.old) × (out.new ≡ overwrite (n * n) (row_order n (stage_two (matrix_of kind n) n (stage_two_shift bit_depth range) (limited_block range n inter.new))) out.old) }
{
    intermediate_column(kind, n, range, coeff, column, inter);
    residual_of(kind, n, bit_depth, range, inter, out);
}

// Kept: no twin of `stages::residual_plain`: its stages are others, and every value is limited as it is read.
// The residual of a block whose columns from nx on are zero and are not read.
pub fn residual_wide(
    kind: Kind,
    n: usize,
    bit_depth: u8,
    range: u32,
    nx: usize,
    coeff: &[i32],
    out: &mut [i32],
)
    requires { WideNeeds kind n range (length coeff.now) (length out.old) × DepthNeeds bit_depth range × CoeffsInRange range n nx coeff.now }
    ensures { out.new ≡ overwrite (n * n) (row_order n (residual (matrix_of kind n) n bit_depth range nx coeff.now)) out.old }
{
    let shift = stage_two_shift(bit_depth, range);
    match kind {
        Kind::Dst => both_4(Kind::Dst, shift, range, nx, coeff, out),
        Kind::Dct => stages_dct(n, shift, range, nx, coeff, out),
    }
}
