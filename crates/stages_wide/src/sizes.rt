// Stages of a block, over the size, with buffers of the size's own length: clearing those of size 32 would take longer than a block of size 8.
// From 8 points on S is the size: A is the number of its values, and N of its points where an array takes it.
ghost use Rattle.std.specs.Prelude.{◌≡◌, ◌+◌, ◌*◌, ◌<◌, ◌≤◌, length};
ghost use Rattle.h265.specs.Matrix.{trans_matrix};
ghost use Rattle.h265.specs.Transform.{intermediate, stage_two};
ghost use Rattle.transform_1d.specs.MatrixOf.{matrix_of};
ghost use Rattle.transform_1d.specs.Rows.{Filled};
ghost use Rattle.coefficients.specs.Rows.{RowsUsed};
ghost use Rattle.stages_wide.specs.Wide.{limited_block};
ghost use Rattle.stages_wide.specs.Parts.{ColumnPlaced, SizeNeeds, WholeStage, StagesNeeds, both_stages};

use crate::moves::{column_narrow, limited_column, put_column, put_columns, take_column, turn};
use crate::products::{put_rounded, stage_4};
use lines_wide::{line_4, line_8};
use tiles::{Stage, half};
use tiles_quarter::rest_zero;
use tiles_wide::pass;
use transform_1d::Kind;
use wide_parts::all_narrow;

// Kept: functions of 4 points, as in products.rt.
// Stage two of 4 points over an intermediate in row order.
pub fn rows_4(kind: Kind, inter: &[i32], range: u32, shift: u32, out: &mut [i32])
    requires { SizeNeeds 4 range shift (length inter.now) (length out.old) }
    ensures { Filled 4 4 (stage_two (matrix_of kind 4) 4 shift (limited_block range 4 inter.now)) 4 out.old out.new }
{
    let mut g = [0i32; 16];
    turn(inter, 4, &mut g[..]);
    stage_4(kind, &g[..], range, 4, shift, out);
}

// Stage one of 4 points, in row order.
pub fn columns_4(kind: Kind, coeff: &[i32], range: u32, inter: &mut [i32])
    requires { SizeNeeds 4 range 7 (length coeff.now) (length inter.old) }
    ensures { Filled 4 4 (intermediate (matrix_of kind 4) 4 range (limited_block range 4 coeff.now)) 4 inter.old inter.new }
{
    let mut g = [0i32; 16];
    stage_4(kind, coeff, range, 4, 7, &mut g[..]);
    put_columns(&g[..], 4, range, inter);
}

// One column of stage one of 4 points.
pub fn column_4(kind: Kind, coeff: &[i32], range: u32, column: usize, inter: &mut [i32])
    requires { SizeNeeds 4 range 7 (length coeff.now) (length inter.old) × (column < 4) }
    ensures { ColumnPlaced 4 column (λ m. intermediate (matrix_of kind 4) 4 range (limited_block range 4 coeff.now) m column) 4 inter.old inter.new }
{
    let mut x = [0i32; 4];
    let mut r = [0i32; 4];
    limited_column(coeff, 4, range, column, &mut x[..]);
    let z = line_4(kind, x);
    put_rounded(&z[..], 4, 7, &mut r[..], 0);
    put_column(&r[..], range, inter, column);
}

// Both stages of a block of which the first S.ROWS rows and columns are used: A of its values.
// Kept: shift, range and nx apart, as in products.rt.
fn both<S: Stage, const A: usize>(shift: u32, range: u32, nx: usize, coeff: &[i32], out: &mut [i32])
    requires { StagesNeeds S.POINTS shift range nx (length coeff.now) (length out.old) × (A ≡ S.ROWS * S.POINTS) × (nx ≤ S.ROWS) × RowsUsed coeff.now S.POINTS nx S.ROWS }
    ensures { Filled S.POINTS S.POINTS (both_stages (trans_matrix S.POINTS) S.POINTS shift range nx coeff.now) S.POINTS out.old out.new }
{
    let mut g = [0i32; A];
    pass::<S, A>(coeff, range, nx, 7, &mut g[..]);
    pass::<S, A>(&g[..], range, S::POINTS, shift, out);
}

// Both stages of a block, by the rows and columns in use: all of them, or B values of A.
pub fn stages<W: Stage, Q: Stage, const A: usize, const B: usize>(
    shift: u32,
    range: u32,
    nx: usize,
    coeff: &[i32],
    out: &mut [i32],
)
    requires { StagesNeeds W.POINTS shift range nx (length coeff.now) (length out.old) × (W.ROWS ≡ W.POINTS) × (Q.POINTS ≡ W.POINTS) × (A ≡ W.POINTS * W.POINTS) × (B ≡ Q.ROWS * Q.POINTS) }
    ensures { Filled W.POINTS W.POINTS (both_stages (trans_matrix W.POINTS) W.POINTS shift range nx coeff.now) W.POINTS out.old out.new }
{
    if nx <= Q::ROWS && rest_zero(coeff, B, A) {
        both::<Q, B>(shift, range, nx, coeff, out);
    } else {
        both::<W, A>(shift, range, nx, coeff, out);
    }
}

// Stage two over an intermediate in row order, in two parts where its values take more than 16 bits.
fn wide_rows<S: Stage, const A: usize>(inter: &[i32], range: u32, shift: u32, out: &mut [i32])
    requires { SizeNeeds S.POINTS range shift (length inter.now) (length out.old) × WholeStage S.ROWS S.POINTS S.POINTS A }
    ensures { Filled S.POINTS S.POINTS (stage_two (trans_matrix S.POINTS) S.POINTS shift (limited_block range S.POINTS inter.now)) S.POINTS out.old out.new }
{
    let mut g = [0i32; A];
    turn(inter, S::POINTS, &mut g[..]);
    pass::<S, A>(&g[..], range, S::POINTS, shift, out);
}

// The same; values that fit 16 bits are narrowed as they are turned over.
pub fn rows<S: Stage, const A: usize>(inter: &[i32], range: u32, shift: u32, out: &mut [i32])
    requires { SizeNeeds S.POINTS range shift (length inter.now) (length out.old) × WholeStage S.ROWS S.POINTS S.POINTS A }
    ensures { Filled S.POINTS S.POINTS (stage_two (trans_matrix S.POINTS) S.POINTS shift (limited_block range S.POINTS inter.now)) S.POINTS out.old out.new }
{
    if all_narrow(inter, A) {
        let mut l = [0i16; A];
        turn(inter, S::POINTS, &mut l[..]);
        S::stage(&l[..], S::POINTS, half(shift), shift, out);
    } else {
        wide_rows::<S, A>(inter, range, shift, out);
    }
}

// Stage one, in row order.
pub fn columns<S: Stage, const A: usize>(coeff: &[i32], range: u32, inter: &mut [i32])
    requires { SizeNeeds S.POINTS range 7 (length coeff.now) (length inter.old) × WholeStage S.ROWS S.POINTS S.POINTS A }
    ensures { Filled S.POINTS S.POINTS (intermediate (trans_matrix S.POINTS) S.POINTS range (limited_block range S.POINTS coeff.now)) S.POINTS inter.old inter.new }
{
    let mut g = [0i32; A];
    pass::<S, A>(coeff, range, S::POINTS, 7, &mut g[..]);
    put_columns(&g[..], S::POINTS, range, inter);
}

// Kept: one function for this and `column_4` would take a trait over their lines with two impls, longer than both; as a closure the line would take
// two clauses, on what it is asked and what it gives.
// One column of stage one of 8 points.
pub fn column_8(coeff: &[i32], range: u32, column: usize, inter: &mut [i32])
    requires { SizeNeeds 8 range 7 (length coeff.now) (length inter.old) × (column < 8) }
    ensures { ColumnPlaced 8 column (λ m. intermediate (trans_matrix 8) 8 range (limited_block range 8 coeff.now) m column) 8 inter.old inter.new }
{
    let mut x = [0i32; 8];
    let mut r = [0i32; 8];
    limited_column(coeff, 8, range, column, &mut x[..]);
    let z = line_8(x);
    put_rounded(&z[..], 8, 7, &mut r[..], 0);
    put_column(&r[..], range, inter, column);
}

// One column of stage one, in two parts where its values take more than 16 bits.
fn wide_column<S: Stage, const A: usize, const N: usize>(
    coeff: &[i32],
    range: u32,
    column: usize,
    inter: &mut [i32],
)
    requires { SizeNeeds N range 7 (length coeff.now) (length inter.old) × WholeStage S.ROWS S.POINTS N A × (column < N) }
    ensures { ColumnPlaced N column (λ m. intermediate (trans_matrix N) N range (limited_block range N coeff.now) m column) N inter.old inter.new }
{
    let mut x = [0i32; A];
    let mut r = [0i32; N];
    take_column(coeff, N, column, &mut x[..]);
    pass::<S, A>(&x[..], range, 1, 7, &mut r[..]);
    put_column(&r[..], range, inter, column);
}

// The same; values that fit 16 bits are narrowed before they stand in a block.
pub fn column<S: Stage, const A: usize, const N: usize>(
    coeff: &[i32],
    range: u32,
    column: usize,
    inter: &mut [i32],
)
    requires { SizeNeeds N range 7 (length coeff.now) (length inter.old) × WholeStage S.ROWS S.POINTS N A × (column < N) }
    ensures { ColumnPlaced N column (λ m. intermediate (trans_matrix N) N range (limited_block range N coeff.now) m column) N inter.old inter.new }
{
    if column_narrow(coeff, N, column) {
        let mut l = [0i16; A];
        let mut r = [0i32; N];
        take_column(coeff, N, column, &mut l[..]);
        S::stage(&l[..], 1, 64, 7, &mut r[..]);
        put_column(&r[..], range, inter, column);
    } else {
        wide_column::<S, A, N>(coeff, range, column, inter);
    }
}
