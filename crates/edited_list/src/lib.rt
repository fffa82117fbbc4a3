// A block that is opened and then edited by a list, lent as slices: what holds of every list of edits, as the contract of one call. Where the opening
// is refused, no edit is made, and the call is refused as the opening.
#![tactic(auto)]

ghost use Rattle.std.specs.Prelude.{length};
ghost use Rattle.scaling_values.specs.Given.{list_of};
ghost use Rattle.block_rules.specs.Edit.{buffers};
ghost use Rattle.block_rules.specs.Opening.{on_coefficients};
ghost use Rattle.block_rules.specs.Level.{on_levels_by};
ghost use Rattle.edited_steps.specs.Steps.{slices, edit_count, edits_of};
ghost use Rattle.edited_list.specs.Listed.{Lists};

use block_rules::LevelsOpened;
pub use edited_steps::Listed;
use parameters::QpPrime;
use refusal::{Precision, Refusal};
use scaling_values::ScalingList;
use transform_1d::Kind;

// Opens a block on coefficients and makes a list of edits: edit i puts values[i] at row rows[i] and column columns[i], as a level where ways[i] and as a
// coefficient elsewhere, and its answer goes to numbers[i]; where it names a coefficient, the row goes to named[i] and the column to across[i], else zeros.
// Where it limits a level, limits[i] has 1, where its result 2, where both 3, else 0. The list is as long as the shortest slice.
// Kept: the buffers apart, here and below: a struct of lent slices would have to promise for each slice that it stays the same one (its ghost_name).
// Kept: kind, size and precision apart, here and below: refusals, scaling and stages each take some of them, and would take a struct apart.
// Kept: the slices of the list and of its answers apart, here and below: C lends each, and there is no heap to pair them in.
pub fn open_and_edit(
    kind: Kind,
    n: usize,
    precision: Precision,
    levels: &mut [i32],
    coeff: &mut [i32],
    inter: &mut [i32],
    residual: &mut [i32],
    rows: &[usize],
    columns: &[usize],
    values: &[i32],
    ways: &[bool],
    numbers: &mut [u8],
    named: &mut [u8],
    across: &mut [u8],
    limits: &mut [u8],
) -> Result<Listed, Refusal>
    ensures { Lists (on_coefficients kind n precision.bit_depth precision.extended) levels.old (buffers coeff.old inter.old residual.old) (edits_of (edit_count (length rows.now) (length columns.now) (length values.now) (length ways.now) (slices numbers.old named.old across.old limits.old)) rows.now columns.now values.now ways.now) (slices numbers.old named.old across.old limits.old) result levels.new (buffers coeff.new inter.new residual.new) (slices numbers.new named.new across.new limits.new) }
{
    // Kept: by `?` and Ok: a map would take a closure with its clause for one field.
    let opening = edited_block::open_block(kind, n, precision, coeff, inter, residual);
    let opened = LevelsOpened {
        limited: 0,
        block: opening?,
    };
    edited_steps::edit_after(
        Ok(opened),
        levels,
        coeff,
        inter,
        residual,
        rows,
        columns,
        values,
        ways,
        numbers,
        named,
        across,
        limits,
    )
}

// The same of a block that is opened on levels.
pub fn open_levels_and_edit(
    kind: Kind,
    n: usize,
    precision: Precision,
    qp_prime: QpPrime,
    list: ScalingList,
    levels: &mut [i32],
    coeff: &mut [i32],
    inter: &mut [i32],
    residual: &mut [i32],
    rows: &[usize],
    columns: &[usize],
    values: &[i32],
    ways: &[bool],
    numbers: &mut [u8],
    named: &mut [u8],
    across: &mut [u8],
    limits: &mut [u8],
) -> Result<Listed, Refusal>
    ensures { Lists (on_levels_by kind n precision.bit_depth precision.extended qp_prime.0 (list_of list.entry)) levels.old (buffers coeff.old inter.old residual.old) (edits_of (edit_count (length rows.now) (length columns.now) (length values.now) (length ways.now) (slices numbers.old named.old across.old limits.old)) rows.now columns.now values.now ways.now) (slices numbers.old named.old across.old limits.old) result levels.new (buffers coeff.new inter.new residual.new) (slices numbers.new named.new across.new limits.new) }
{
    let opened = level_block::open_levels(
        kind, n, precision, qp_prime, list, levels, coeff, inter, residual,
    );
    edited_steps::edit_after(
        opened, levels, coeff, inter, residual, rows, columns, values, ways, numbers, named,
        across, limits,
    )
}
