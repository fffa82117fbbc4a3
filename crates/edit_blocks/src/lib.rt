// For each index of a block the values of its coefficient that give the residual a target at every wanted sample.
// Internal: callers meet each `requires`; `refuse` has what both searches refuse before it.
#![tactic(auto)]

pub mod refuse; // the refusals of both searches
mod search; // what the search over one block reads
mod spans; // the values of one coefficient, and of every index

ghost use Rattle.std.specs.Prelude.{◌≡◌, length, ◌*◌};
ghost use Rattle.integers.specs.Lists.{overwrite};
ghost use Rattle.edit_blocks.specs.Edits.{least_edit, most_edit};
ghost use Rattle.edit_blocks.specs.Work.{EditsNeeds};

use edit_tables::{matrix, sums};
use refusal::Precision;
use search::Search;
pub use spans::{least_of, most_of};
use transform_1d::Kind;

// The least and the most value at every index; 1 and 0 where there is none.
// Kept: target and wanted, least and most are slices of their own, as C lends them; a struct of two would be made at each of the two calls, in edit_search and level_edits, and taken apart here.
// Kept: kind, size and precision apart, here and in refuse.rt: refusals, range, shift and matrix each take some of them, and would take a struct apart.
pub fn find(
    kind: Kind,
    n: usize,
    precision: Precision,
    coeff: &[i32],
    target: &[i32],
    wanted: &[u8],
    least: &mut [i32],
    most: &mut [i32],
)
    requires { EditsNeeds kind n precision.bit_depth precision.extended coeff.now (length target.now) (length wanted.now) (length least.old) (length most.old) }
    ensures { (least.new ≡ overwrite (n * n) (least_edit kind n precision.bit_depth precision.extended coeff.now target.now wanted.now) least.old) × (most.new ≡ overwrite (n * n) (most_edit kind n precision.bit_depth precision.extended coeff.now target.now wanted.now) most.old) }
{
    let range = coefficients::transform_range(precision);
    let shift = transform_1d::stage_two_shift(precision.bit_depth, range);
    let t = matrix::matrix(kind, n);
    let d = sums::widened(coeff, n);
    let ones = sums::down_columns(&t, &d, n);
    let between = sums::limited(&ones, n, range);
    let twos = sums::along_rows(&t, &between, n);
    let search = Search {
        matrix: &t,
        coeff: &d,
        ones: &ones,
        between: &between,
        twos: &twos,
        target,
        wanted,
        n,
        range,
        shift,
    };
    spans::all_indices(&search, least, most);
}
