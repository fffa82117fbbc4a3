// The matrix of a kind of transform by row and column.
ghost use Rattle.std.specs.Prelude.{◌≡◌, T};
ghost use Rattle.h265.specs.Matrix.{trans_matrix, dst_matrix};
ghost use Rattle.h265.specs.Range.{is_size};
ghost use Rattle.transform_1d.specs.declared.Kind.TheVariants.{Dst};
ghost use Rattle.transform_1d.specs.MatrixOf.{matrix_of};
ghost use Rattle.edit_tables.specs.Tables.{Holds};

use crate::filled;
use transform_1d::Kind;

// Row k of n points begins row k × 32 / n of the 32-point matrix.
fn dct_matrix(n: usize) -> [i64; 1024]
    requires { T (is_size n) }
    ensures { Holds n (trans_matrix n) result }
{
    let t = transform_1d::trans_matrix();
    filled(n, |k, j| i64::from(t[k * (1024 / n) + j]))
}

fn dst_matrix() -> [i64; 1024]
    ensures { Holds 4 dst_matrix result }
{
    let t = transform_1d::dst_matrix();
    filled(4, |k, j| i64::from(t[4 * k + j]))
}

// The matrix of a kind.
pub fn matrix(kind: Kind, n: usize) -> [i64; 1024]
    requires { T (is_size n) × (kind ≡ Dst → n ≡ 4) }
    ensures { Holds n (matrix_of kind n) result }
{
    match kind {
        Kind::Dct => dct_matrix(n),
        Kind::Dst => dst_matrix(),
    }
}
