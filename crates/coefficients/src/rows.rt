// Rows in use: what a stage reads of a block ends with the last row that is not zero.
ghost use Rattle.std.specs.Prelude.{◌≡◌, true, ℕ, ◌+◌, ◌*◌, ◌<◌, ◌≤◌, pos, length, get_or};
ghost use Rattle.coefficients.specs.Rows.{RowsUsed};

// `true` only where every coefficient is zero; `false` says nothing.
fn zero_run(row: &[i32]) -> bool
    ensures { result ≡ true → (c : ℕ) → c < length row.now → get_or row.now c (pos 0) ≡ pos 0 }
{
    row.iter().all(|x| *x == 0)
}

// A row from which on the first nx columns are zero. That it is the first such row from `least` on is left free, since a caller that is told too many rows
// computes sums with more zeros in them, and the same results.
pub fn rows_used(coeff: &[i32], n: usize, nx: usize, least: usize) -> usize
    requires { (n * n ≤ length coeff.now) × (nx ≤ n) × (n ≤ 32) }
    ensures { RowsUsed coeff.now n nx result }
{
    for k in (least..n).rev() {
        if !zero_run(&coeff[k * n..k * n + nx]) {
            return k + 1;
        }
    }
    least.min(n)
}
