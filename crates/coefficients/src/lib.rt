// The range of coefficients, where a block has one outside it and on which side, and which rows are in use. Internal: the crates above call these and meet what they require.
#![tactic(auto)]

ghost use Rattle.std.specs.Prelude.{◌≡◌, true, false, ℕ, ◌+◌, ◌*◌, ◌^◌, ◌<◌, ◌≤◌, T, pos, get_or, length};
ghost use Rattle.std.specs.Int.Signed.{lt_z};
ghost use Rattle.h265.specs.Range.{is_size, transform_range, coeff_min, outside_range};
ghost use Rattle.coefficients.specs.Outside.{outside_refusal, InsideChecked, RowChecked};

use refusal::{Precision, Refusal};

mod rows; // which rows are in use

pub use rows::rows_used;

// R: coefficients lie in -2^R .. 2^R - 1.
// Kept: R stays a plain number, with `range ≤ 22` where it is used: each function shifts by it, and would take it out of a type of its own first.
pub fn transform_range(precision: Precision) -> u32
    requires { precision.bit_depth ≤ 16 }
    ensures { result ≡ transform_range precision.bit_depth precision.extended }
{
    if precision.extended {
        return ((precision.bit_depth + 6) as u32).max(15);
    }
    15
}

// Whether x lies below the range.
fn is_below(x: i32, range: u32) -> bool
    requires { range ≤ 22 }
    ensures { result ≡ lt_z x (coeff_min range) }
{
    let end = 1i32 << range;
    x < -end
}

// Whether x lies outside the range.
pub fn is_outside(x: i32, range: u32) -> bool
    requires { range ≤ 22 }
    ensures { result ≡ outside_range range x }
{
    let end = 1i32 << range;
    !(-end..=end - 1).contains(&x)
}

// Why a coefficient outside the range is refused: it names the side, the row and the column.
pub fn outside_refusal(x: i32, range: u32, row: usize, column: usize) -> Refusal
    requires { (range ≤ 22) × (row < 32) × (column < 32) }
    ensures { result ≡ outside_refusal range x row column }
{
    if is_below(x, range) {
        return Refusal::CoefficientBelow(row as u8, column as u8);
    }
    Refusal::CoefficientAbove(row as u8, column as u8)
}

// How far x lies above the least value of the range, in 32 bits: a number past the range, on either side, is 2^(R+1) or more.
fn reach(x: i32, range: u32) -> u32
    requires { range ≤ 22 }
    ensures { result < 2 ^ (range + 1) → outside_range range x ≡ false }
{
    x.wrapping_add(1i32 << range).cast_unsigned()
}

// `true` only where every coefficient lies in the range. `false` says nothing, and is left free: the caller then looks row by row, so that
// nothing rests on it but time. One pass with no way out, so that the compiler takes several at a time.
#[tactic(auto, using(crate::proofs::OutsideLaws::all_reach_zero))]
fn all_inside(coeff: &[i32], range: u32) -> bool
    requires { range ≤ 22 }
    ensures { result ≡ true → (i : ℕ) → i < length coeff.now → outside_range range (get_or coeff.now i (pos 0)) ≡ false }
{
    let mut bits: u32 = 0;
    for x in coeff {
        bits |= reach(*x, range);
    }
    bits < 1u32 << (range + 1)
}

// Rows 9 and 19 of one row of the block.
fn check_row(row: &[i32], k: usize, range: u32) -> Result<(), Refusal>
    requires { (length row.now ≤ 32) × (k < 32) × (range ≤ 22) }
    ensures { RowChecked range k row.now result }
{
    for (column, x) in row.iter().enumerate() {
        if is_outside(*x, range) {
            return Err(outside_refusal(*x, range, k, column));
        }
    }
    Ok(())
}

// What `check_inside` tests, row by row.
// Kept: coeff, n and nx apart, here and in `rows`, with their bounds as clauses: a struct would be made for one call and taken apart in it.
fn check_rows(coeff: &[i32], n: usize, nx: usize, range: u32) -> Result<(), Refusal>
    requires { T (is_size n) × (nx ≤ n) × (n * n ≤ length coeff.now) × (range ≤ 22) }
    ensures { InsideChecked range n nx coeff.now result }
{
    for k in 0..n {
        check_row(&coeff[k * n..k * n + nx], k, range)?;
    }
    Ok(())
}

// Rows 9 and 19: the first coefficient in row order that lies outside the range, among the first nx columns.
// A pass over all columns passes an ordinary block; columns from nx on may hold anything, so that where it stops, the rows decide.
pub fn check_inside(coeff: &[i32], n: usize, nx: usize, range: u32) -> Result<(), Refusal>
    requires { T (is_size n) × (nx ≤ n) × (n * n ≤ length coeff.now) × (range ≤ 22) }
    ensures { InsideChecked range n nx coeff.now result }
{
    if all_inside(&coeff[..n * n], range) {
        return Ok(());
    }
    check_rows(coeff, n, nx, range)
}
