// A transform block that is opened once and then changed one coefficient at a time (docs/RULES.md, "The edited block").
#![tactic(auto)]

ghost use Rattle.refusal.specs.Written.{Writes};
ghost use Rattle.block_rules.specs.Opening.{on_coefficients, opened_as};
ghost use Rattle.block_rules.specs.Edit.{edited, refreshed, buffers, Opens, Edits};

pub use block_rules::{EditedBlock, Source, zero_block, zero_source};
use block_work::columns::column_count;
use block_work::refuse::{block_refusal, check_place};
use refusal::{Precision, Refusal};
use transform_1d::Kind;

// Opens a block on the caller's own coefficients, which it leaves, and writes its intermediate and its residual.
// Kept: the buffers apart, here and below: a struct of lent slices would have to promise for each slice that it stays the same one (its ghost_name).
// Kept: kind, size and precision apart, here and below: refusals, range and stages each take some of them, and would take a struct apart.
pub fn open_block(
    kind: Kind,
    n: usize,
    precision: Precision,
    coeff: &[i32],
    inter: &mut [i32],
    residual: &mut [i32],
) -> Result<EditedBlock, Refusal>
    ensures { Opens (opened_as (on_coefficients kind n precision.bit_depth precision.extended) (buffers coeff.now inter.old residual.old)) result inter.new residual.new }
{
    block_work::open_from(
        kind,
        n,
        precision,
        block_rules::zero_source(),
        coeff,
        inter,
        residual,
    )
}

// One edit of an open block: sets the value, and writes the column count, the intermediate and the residual. A refused edit changes nothing.
// Kept: row, column and value apart: C gives them so, and a struct of them would be made for one call and taken apart in it.
// Kept: a function and no method: an `impl` of the record stands in the record's own crate, which lies below the stages that an edit runs.
pub fn edit(
    block: &mut EditedBlock,
    coeff: &mut [i32],
    inter: &mut [i32],
    residual: &mut [i32],
    row: usize,
    column: usize,
    value: i32,
) -> Result<(), Refusal>
    ensures { Edits (edited block.old (buffers coeff.old inter.old residual.old) row column value) result block.new coeff.new inter.new residual.new }
{
    let EditedBlock {
        kind,
        size: n,
        precision,
        source,
        ..
    } = *block;
    let depth = precision.bit_depth;
    block_refusal(kind, n, depth, coeff.len(), inter.len(), residual.len())?;
    refusal::check(source.levels, Refusal::WayMismatched)?;
    check_place(n, row, column)?;
    let range = coefficients::transform_range(precision);
    let outside = coefficients::is_outside(value, range);
    let why = coefficients::outside_refusal(value, range, row, column);
    refusal::check(outside, why)?;
    block_work::edit_stages(
        kind, n, depth, range, coeff, inter, residual, row, column, value,
    );
    block.columns = column_count(coeff, n);
    Ok(())
}

// The residual of an intermediate: stage two alone, for a caller whose residual is out of date. It has no coefficients that could be too few: 1024
// are enough at every size.
pub fn refresh_residual(
    kind: Kind,
    n: usize,
    precision: Precision,
    inter: &[i32],
    residual: &mut [i32],
) -> Result<(), Refusal>
    ensures { Writes result residual.new (refreshed kind n precision.bit_depth precision.extended inter.now residual.old) }
{
    let depth = precision.bit_depth;
    block_refusal(kind, n, depth, 1024, inter.len(), residual.len())?;
    let range = coefficients::transform_range(precision);
    stages_wide::residual_of(kind, n, depth, range, inter, residual);
    Ok(())
}
