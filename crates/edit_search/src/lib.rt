// Which edits make the mark go? For each index of a block the values of its coefficient with which the residual has a target at every wanted sample.
#![tactic(auto)]

ghost use Rattle.edit_search.specs.Found.{Finds, edits_found};

use refusal::{Precision, Refusal};
use transform_1d::Kind;

// The least and the most value at every index, in place of the coefficient there; 1 and 0 where there is none. A sample is wanted where its byte is other than 0.
// Kept: kind, size and precision apart: refusals, range and search each take some of them, and would take a struct apart.
pub fn find_edits(
    kind: Kind,
    n: usize,
    precision: Precision,
    coeff: &[i32],
    // Kept: target and wanted are two slices: C lends each with a length of its own, and row 6 measures each.
    target: &[i32],
    wanted: &[u8],
    // Kept: a struct of both lent outputs would need a clause for each that it is still the one that was lent, where two parameters need none.
    least: &mut [i32],
    most: &mut [i32],
) -> Result<(), Refusal>
    ensures { Finds result least.new most.new (edits_found kind n precision.bit_depth precision.extended coeff.now target.now wanted.now least.old most.old) }
{
    // No list is lent, and of 64 entries row 5 refuses nothing.
    edit_blocks::refuse::edit_refusal(
        kind,
        n,
        precision.bit_depth,
        64,
        coeff.len(),
        target.len(),
        wanted.len(),
        least.len(),
        most.len(),
    )?;
    let range = coefficients::transform_range(precision);
    coefficients::check_inside(coeff, n, n, range)?;
    edit_blocks::find(kind, n, precision, coeff, target, wanted, least, most);
    Ok(())
}
