// The column count of a block.
ghost use Rattle.std.specs.Prelude.{◌≡◌, ℕ, ◌+◌, ◌*◌, ◌<◌, ◌≤◌, T, pos, length, get_or};
ghost use Rattle.h265.specs.Range.{is_size};
ghost use Rattle.coefficients.specs.Rows.{RowsUsed};
ghost use Rattle.block_rules.specs.Columns.{column_used, column_count};

// How many coefficients of a row are not zero: 0 only where all are zero; another number says nothing. No way out of the loop, so that the compiler
// takes several at a time.
// Kept: a loop that counts; of `row.iter().filter(..).count()`, tried in its place, the compiler takes one coefficient at a time.
#[inline(always)]
fn nonzeros(row: &[i32]) -> u32
    requires { length row.now ≤ 32 }
    ensures { result ≡ 0 → (j : ℕ) → j < length row.now → get_or row.now j (pos 0) ≡ pos 0 }
{
    let mut found: u32 = 0;
    for v in row {
        found += (*v != 0) as u32;
    }
    found
}

// What `coefficients::rows_used` gives for all columns.
// Kept: a size as a number, here and below, as in refusal.
// Kept: that one leaves a row at the first coefficient other than zero; a row with no way out is read several at a time (docs/DECISIONS.md, 29).
#[inline(always)]
fn rows_used(coeff: &[i32], n: usize) -> usize
    requires { T (is_size n) × (n * n ≤ length coeff.now) }
    ensures { RowsUsed coeff.now n n result }
{
    for k in (0..n).rev() {
        if nonzeros(&coeff[k * n..k * n + n]) != 0 {
            return k + 1;
        }
    }
    0
}

// Whether a column has a coefficient other than zero, by the rows that are in use.
#[inline(always)]
fn is_used(coeff: &[i32], n: usize, rows: usize, c: usize) -> bool
    requires { T (is_size n) × (n * n ≤ length coeff.now) × (c < n) × RowsUsed coeff.now n n rows }
    ensures { result ≡ column_used n coeff.now c }
{
    (0..rows).any(|k| coeff[k * n + c] != 0)
}

// One past the last column that has a coefficient other than zero, or 0: from the last column leftwards, to the first such one. Rows that are
// not in use are not walked down again in every column.
#[inline(always)]
fn count_columns(coeff: &[i32], n: usize) -> usize
    requires { T (is_size n) × (n * n ≤ length coeff.now) }
    ensures { result ≡ column_count n coeff.now }
{
    let rows = rows_used(coeff, n);
    for c in (0..n).rev() {
        if is_used(coeff, n, rows, c) {
            return c + 1;
        }
    }
    0
}

// The same. A block of size 4 has rows of a length that the compiler knows.
// Kept: two calls: of rows of four whose length comes with the call half the time goes before and behind a loop over whole vectors.
pub fn column_count(coeff: &[i32], n: usize) -> usize
    requires { T (is_size n) × (n * n ≤ length coeff.now) }
    ensures { result ≡ column_count n coeff.now }
{
    if n == 4 {
        return count_columns(coeff, 4);
    }
    count_columns(coeff, n)
}
