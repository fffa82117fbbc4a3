// What the search for edits works out of a block once: the matrix, the coefficients and the sums of both stages, each as a table of 64-bit numbers.
// Internal: no refusal; callers meet each `requires`.
#![tactic(auto)]

ghost use Rattle.std.specs.Prelude.{◌≡◌, ℕ, ◌<◌, T};
ghost use Rattle.h265.specs.Range.{is_size};
ghost use Rattle.edit_tables.specs.Tables.{Filled};

pub mod matrix; // the matrix by row and column
pub mod sums; // the coefficients, the sums of both stages, and the intermediate between them

// A table of n rows, each number made from its row and its column.
// Kept: tables of the largest size with n beside them, here, in matrix.rt and in sums.rt: there is no heap, and n stands once for all tables of a block.
// Kept: a size as a number with its clause, here, in matrix.rt and in sums.rt: as in `refusal`.
fn filled<F: Fn(usize, usize) -> i64>(n: usize, cell: F) -> [i64; 1024]
    requires { T (is_size n) × ((m c : ℕ) → m < n → c < n → F.pre cell m c) }
    ensures { Filled n (λ m c x. F.post cell m c x) result }
{
    let mut r = [0i64; 1024];
    for i in 0..n * n {
        r[i] = cell(i / n, i % n);
    }
    r
}
