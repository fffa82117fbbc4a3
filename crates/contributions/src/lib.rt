// Which coefficient makes this sample: what each coefficient of a block adds to one sample of the residual, before anything is rounded or limited.
// Refuses 1, 4, 6, 7 and 8, in that order.
#![tactic(auto)]

ghost use Rattle.refusal.specs.Written.{Writes};
ghost use Rattle.contributions.specs.Sample.{contributed};

use refusal::Refusal;
use transform_1d::Kind;

mod matrix; // a column of the matrix
mod products; // what each coefficient adds
mod refuse; // the refusals

// The number at index k × n + c is T(k, row) × T(c, column) × coefficient (k, c), of any 32-bit coefficients.
// Kept: kind, size, row and column apart, here, in products.rt and in refuse.rt: refusals, columns and products each take some of them, and would take a struct apart.
pub fn contributions(
    kind: Kind,
    n: usize,
    row: usize,
    column: usize,
    coeff: &[i32],
    out: &mut [i64],
) -> Result<(), Refusal>
    ensures { Writes result out.new (contributed kind n row column coeff.now out.old) }
{
    refuse::sample_refusal(kind, n, row, column, coeff.len(), out.len())?;
    products::block_products(kind, n, row, column, coeff, out);
    Ok(())
}
