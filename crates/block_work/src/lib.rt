// What the calls of an edited block stand on: the refusals that they share, the column count, the opening with any source, and the stages of an
// opening and of an edit.
#![tactic(auto)]

ghost use Rattle.std.specs.Prelude.{◌≡◌, ◌+◌, ◌*◌, ◌<◌, length, set};
ghost use Rattle.block_rules.specs.Edit.{opened_buffers, opened, edited_buffers, buffers, Opens};
ghost use Rattle.block_rules.specs.Work.{EditNeeds, Staged};

use block_rules::{EditedBlock, Source};
use refusal::{Precision, Refusal};
use transform_1d::Kind;

pub mod columns;
pub mod refuse;

use columns::column_count;
use refuse::block_refusal;

// Both stages of an opening, over all columns.
// Kept: the buffers apart, here and below: a struct of lent slices would have to promise for each slice that it stays the same one (its ghost_name).
// Kept: kind, size, depth and range apart, here and below: refusals, range and stages each take some of them, and would take a struct apart.
fn open_stages(
    kind: Kind,
    n: usize,
    bit_depth: u8,
    range: u32,
    coeff: &[i32],
    inter: &mut [i32],
    residual: &mut [i32],
)
    requires { EditNeeds kind n bit_depth range (length coeff.now) (length inter.old) (length residual.old) }
    ensures { Staged (opened_buffers kind n bit_depth range (buffers coeff.now inter.old residual.old)) inter.new residual.new }
{
    stages_wide::intermediate_of(kind, n, range, coeff, inter);
    stages_wide::residual_of(kind, n, bit_depth, range, inter, residual);
}

// The opening on coefficients that come from a given source, which the record keeps: what an opening on levels ends in.
pub fn open_from(
    kind: Kind,
    n: usize,
    precision: Precision,
    source: Source,
    coeff: &[i32],
    inter: &mut [i32],
    residual: &mut [i32],
) -> Result<EditedBlock, Refusal>
    ensures { Opens (opened kind n precision.bit_depth precision.extended source (buffers coeff.now inter.old residual.old)) result inter.new residual.new }
{
    block_refusal(
        kind,
        n,
        precision.bit_depth,
        coeff.len(),
        inter.len(),
        residual.len(),
    )?;
    let range = coefficients::transform_range(precision);
    coefficients::check_inside(coeff, n, n, range)?;
    open_stages(kind, n, precision.bit_depth, range, coeff, inter, residual);
    Ok(EditedBlock {
        kind,
        size: n,
        precision,
        columns: column_count(coeff, n),
        source,
    })
}

// An accepted edit: the value set, the intermediate's column computed anew, and the residual.
pub fn edit_stages(
    kind: Kind,
    n: usize,
    bit_depth: u8,
    range: u32,
    coeff: &mut [i32],
    inter: &mut [i32],
    residual: &mut [i32],
    row: usize,
    column: usize,
    value: i32,
)
    requires { EditNeeds kind n bit_depth range (length coeff.old) (length inter.old) (length residual.old) × (row < n) × (column < n) }
    ensures { (coeff.new ≡ set coeff.old (row * n + column) value) × Staged (edited_buffers kind n bit_depth range (buffers coeff.old inter.old residual.old) row column value) inter.new residual.new }
{
    coeff[row * n + column] = value;
    stages_wide::column_and_residual(kind, n, bit_depth, range, coeff, column, inter, residual);
}
