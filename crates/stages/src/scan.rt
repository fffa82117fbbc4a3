// Whether the first coefficient of its column is the only one.
ghost use Rattle.std.specs.Prelude.{◌≡◌, true, ◌*◌, ◌<◌, ◌≤◌, length, map};
ghost use Rattle.coefficients.specs.Rows.{RowsUsed};

use crate::sample::Sample;

// `true` only where the first column is zero below its first row; `false` says nothing.
// Kept: `(1..n).all(..)` was tried, and the proof of what it returns did not close.
pub fn first_row_alone<V: Sample>(coeff: &[V], n: usize) -> bool
    requires { (n * n ≤ length coeff.now) × (0 < n) × (n ≤ 32) }
    ensures { result ≡ true → RowsUsed (map V.value coeff.now) n 1 1 }
{
    for k in 1..n {
        if !coeff[k * n].is_zero() {
            return false;
        }
    }
    true
}
