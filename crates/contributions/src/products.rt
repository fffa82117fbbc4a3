// What each coefficient adds to a sample. The sample's row picks the column of the matrix that goes down the coefficients' rows, and its column
// the one that goes across their columns.
ghost use Rattle.std.specs.Prelude.{◌≡◌, ◌*◌, ◌<◌, ◌≤◌, T, ◌*ℤ◌, length};
ghost use Rattle.integers.specs.Lists.{overwrite};
ghost use Rattle.h265.specs.Range.{is_size};
ghost use Rattle.h265.specs.Matrix.{trans_matrix, dst_matrix};
ghost use Rattle.h265.specs.Transform.{row_order};
ghost use Rattle.transform_1d.specs.declared.Kind.TheVariants.{Dst};
ghost use Rattle.transform_1d.specs.MatrixOf.{matrix_of};
ghost use Rattle.contributions.specs.Sample.{contribution};
ghost use Rattle.contributions.specs.Work.{product_of};

use crate::matrix;
use transform_1d::Kind;

// No product of two 16-bit numbers and a 32-bit one leaves 64 bits.
fn product(u: i16, v: i16, x: i32) -> i64
    ensures { result ≡ (u *ℤ v) *ℤ x }
{
    i64::from(u) * i64::from(v) * i64::from(x)
}

fn products(down: &[i16; 32], across: &[i16; 32], n: usize, coeff: &[i32], out: &mut [i64])
    requires { T (is_size n) × (n * n ≤ length coeff.now) × (n * n ≤ length out.old) }
    ensures { out.new ≡ overwrite (n * n) (row_order n (product_of down.now across.now n coeff.now)) out.old }
{
    let count = n * n;
    for i in 0..count {
        out[i] = product(down[i / n], across[i % n], coeff[i]);
    }
}

fn dct_products(n: usize, row: usize, column: usize, coeff: &[i32], out: &mut [i64])
    requires { T (is_size n) × (row < n) × (column < n) × (n * n ≤ length coeff.now) × (n * n ≤ length out.old) }
    ensures { out.new ≡ overwrite (n * n) (row_order n (contribution (trans_matrix n) n coeff.now row column)) out.old }
{
    let t = transform_1d::trans_matrix();
    let down = matrix::dct_column(&t, n, row);
    let across = matrix::dct_column(&t, n, column);
    products(&down, &across, n, coeff, out);
}

// Kept: a function for each kind: with the size a literal here, a sample of the DST takes less than half the time.
fn dst_products(row: usize, column: usize, coeff: &[i32], out: &mut [i64])
    requires { (row < 4) × (column < 4) × (16 ≤ length coeff.now) × (16 ≤ length out.old) }
    ensures { out.new ≡ overwrite 16 (row_order 4 (contribution dst_matrix 4 coeff.now row column)) out.old }
{
    let t = transform_1d::dst_matrix();
    let down = matrix::dst_column(&t, row);
    let across = matrix::dst_column(&t, column);
    products(&down, &across, 4, coeff, out);
}

// Past the refusals: all n² numbers.
pub(crate) fn block_products(
    kind: Kind,
    n: usize,
    row: usize,
    column: usize,
    coeff: &[i32],
    out: &mut [i64],
)
    requires { T (is_size n) × (kind ≡ Dst → n ≡ 4) × (row < n) × (column < n) × (n * n ≤ length coeff.now) × (n * n ≤ length out.old) }
    ensures { out.new ≡ overwrite (n * n) (row_order n (contribution (matrix_of kind n) n coeff.now row column)) out.old }
{
    match kind {
        Kind::Dct => dct_products(n, row, column, coeff, out),
        Kind::Dst => dst_products(row, column, coeff, out),
    }
}
