// Both stages of a block. The intermediate stands with the line over column c as row c, so that both stages read columns.
ghost use Rattle.std.specs.Prelude.{◌≡◌, ℕ, ◌+◌, ◌*◌, ◌<◌, ◌≤◌, ◌^◌, pos, length, get_or, map};
ghost use Rattle.integers.specs.Lists.{overwrite};
ghost use Rattle.integers.specs.Shift.{round_shift};
ghost use Rattle.integers.specs.Within.{Within};
ghost use Rattle.h265.specs.Matrix.{trans_matrix};
ghost use Rattle.h265.specs.Range.{clip_coeff};
ghost use Rattle.h265.specs.Transform.{row_order};
ghost use Rattle.coefficients.specs.Rows.{RowsUsed};
ghost use Rattle.vectors.specs.Lanes.{lane, column};
ghost use Rattle.lines.specs.Fold.{round_most, TwiceBy};
ghost use Rattle.transform_1d.specs.MatrixOf.{matrix_of};
ghost use Rattle.stages.specs.Passes.{shifted_residual, BlockNeeds};

use crate::sample::Sample;
use lines::{line_4, line_dst};
use tiles::{Stage, columns, fill, half, rounded, shifted};
use tiles_quarter::rest_zero;
use transform_1d::Kind;
use vectors::{Sums, Values, values_turned};

// Four lines of a kind of 4 points.
#[inline(always)]
fn line_of(kind: Kind, x: &[Values; 4], r: Sums) -> [Sums; 4]
    requires { (j : ℕ) → Within round_most (lane j r.v) }
    ensures { (j : ℕ) → TwiceBy (matrix_of kind 4) 4 1 (column (λ q. q.v) j x.now) (lane j r.v) (column (λ q. q.v) j result) }
{
    match kind {
        Kind::Dct => line_4(&x[..], 1, r),
        Kind::Dst => line_dst(x, r),
    }
}

// The columns that are read of four rows. The others are zero, since they may hold anything; so are the rows of the intermediate that they give.
#[inline(always)]
fn columns_4(x: &[Values], nx: usize) -> [Values; 4]
    requires { (length x.now ≡ 4) × (nx ≤ 4) }
    ensures { (j k : ℕ) → j < 4 → k < 4 → (j < nx → get_or (column (λ q. q.v) j result) k (pos 0) ≡ get_or (column (λ q. q.v) j x.now) k (pos 0)) × (nx ≤ j → get_or (column (λ q. q.v) j result) k (pos 0) ≡ pos 0) }
{
    [
        x[0].first(nx),
        x[1].first(nx),
        x[2].first(nx),
        x[3].first(nx),
    ]
}

// The outputs of stage one of 4 points, limited to 16 bits and turned over: the rows of the intermediate.
#[inline(always)]
fn rows_4(z: &[Sums]) -> [Values; 4]
    requires { length z.now ≡ 4 }
    ensures { (j m : ℕ) → j < 4 → m < 4 → get_or (column (λ q. q.v) m result) j (pos 0) ≡ clip_coeff 15 (get_or (column (λ q. q.v) j z.now) m (pos 0)) }
{
    let (a, b, c, d) = values_turned(
        z[0].limited(),
        z[1].limited(),
        z[2].limited(),
        z[3].limited(),
    );
    [a, b, c, d]
}

// A block of size 4.
// Kept: 4 points are no `Stage`: their block is four vectors, which a stage that is called would put by.
#[inline(always)]
pub fn block_4<V: Sample>(kind: Kind, coeff: &[V], nx: usize, s: u32, out: &mut [V])
    requires { BlockNeeds 4 s nx (map V.value coeff.now) (length out.old) × (V.least_shift ≤ s) }
    ensures { map V.value out.new ≡ overwrite (4 * 4) (row_order 4 (shifted_residual (matrix_of kind 4) 4 s nx (map V.value coeff.now))) (map V.value out.old) }
{
    let a = columns::<V, 4, 4>(coeff, 0);
    let x = columns_4(&a[..], nx);
    let z = shifted(&line_of(kind, &x, Sums::splat(128)), 8);
    let y = rows_4(&z[..]);
    let v = shifted(&line_of(kind, &y, Sums::splat(2 * half(s))), s + 1);
    V::put_block(&v[..], out);
}

// The DCT of a block of which the first S.ROWS rows and columns are used: A coefficients.
fn block<V: Sample, S: Stage, const A: usize>(coeff: &[V], nx: usize, s: u32, out: &mut [V])
    requires { BlockNeeds S.POINTS s nx (map V.value coeff.now) (length out.old) × (V.least_shift ≤ s) × (A ≡ S.ROWS * S.POINTS) × (nx ≤ S.ROWS) × RowsUsed (map V.value coeff.now) S.POINTS nx S.ROWS }
    ensures { map V.value out.new ≡ overwrite (S.POINTS * S.POINTS) (row_order S.POINTS (shifted_residual (trans_matrix S.POINTS) S.POINTS s nx (map V.value coeff.now))) (map V.value out.old) }
{
    let mut d = [0i16; A];
    S::stage(coeff, nx, 64, 7, &mut d[..]);
    S::stage(&d[..], S::POINTS, half(s), s, out);
}

// The DCT of a block, by the rows and columns in use: all of them, or B coefficients of A.
pub fn block_dct<V: Sample, W: Stage, Q: Stage, const A: usize, const B: usize>(
    coeff: &[V],
    nx: usize,
    s: u32,
    out: &mut [V],
)
    requires { BlockNeeds W.POINTS s nx (map V.value coeff.now) (length out.old) × (V.least_shift ≤ s) × (W.ROWS ≡ W.POINTS) × (Q.POINTS ≡ W.POINTS) × (A ≡ W.ROWS * W.POINTS) × (B ≡ Q.ROWS * Q.POINTS) }
    ensures { map V.value out.new ≡ overwrite (W.POINTS * W.POINTS) (row_order W.POINTS (shifted_residual (trans_matrix W.POINTS) W.POINTS s nx (map V.value coeff.now))) (map V.value out.old) }
{
    if nx <= Q::ROWS && rest_zero(coeff, B, A) {
        block::<V, Q, B>(coeff, nx, s, out);
    } else {
        block::<V, W, A>(coeff, nx, s, out);
    }
}

// (x + 64) >> 7, limited to 16 bits: a value of the intermediate.
fn clipped(x: i32) -> i16
    requires { Within (2 ^ 27) x }
    ensures { result ≡ clip_coeff 15 (round_shift x 7) }
{
    tiles::limited(rounded(x, 7))
}

// A DCT's block whose only coefficient is the first: row 0 of every DCT's matrix is 64, so that all outputs are equal.
pub fn dc_fill<V: Sample>(coeff: &[V], n: usize, s: u32, out: &mut [V])
    requires { (0 < n) × (n ≤ 32) × BlockNeeds n s 1 (map V.value coeff.now) (length out.old) × (V.least_shift ≤ s) × RowsUsed (map V.value coeff.now) n 1 1 }
    ensures { map V.value out.new ≡ overwrite (n * n) (row_order n (shifted_residual (trans_matrix n) n s 1 (map V.value coeff.now))) (map V.value out.old) }
{
    let g = clipped(64 * coeff[0].number());
    fill(V::of(rounded(64 * (g as i32), s)), n * n, out);
}
