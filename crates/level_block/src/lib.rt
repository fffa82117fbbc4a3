// A block that is opened on levels and then changed one level at a time (change request R-9).
#![tactic(auto)]

ghost use Rattle.scaling_values.specs.Given.{list_of};
ghost use Rattle.block_rules.specs.Edit.{buffers};
ghost use Rattle.level_work.specs.Work.{LevelEditChecked};
ghost use Rattle.block_rules.specs.Level.{level_edited, LevelEdits, on_levels_by, level_opened, LevelOpens};

use block_rules::EditedBlock;
pub use block_rules::{LevelsOpened, Limits};
use block_work::columns::column_count;
use block_work::refuse::check_place;
use level_work::refuse::level_refusal;
use level_work::{coefficient_of, looked_at, source_of};
use parameters::QpPrime;
use refusal::{Precision, Refusal};
use scaling_blocks::blocks;
use scaling_values::ScalingList;
use transform_1d::Kind;

// The rows that refuse a level edit, lowest first; but for 10 before 8. It cannot meet 9 or 19: scaling limits.
// Kept: the buffers apart, here and below: a struct of lent slices would have to promise for each slice that it stays the same one (its ghost_name).
// Kept: row, column and level apart, here and below: C gives them so, and a struct of them would be made for one call and taken apart in it.
fn check_edit(
    block: EditedBlock,
    levels: &[i32],
    coeff: &[i32],
    inter: &[i32],
    residual: &[i32],
    row: usize,
    column: usize,
) -> Result<(), Refusal>
    ensures { LevelEditChecked block levels.now (buffers coeff.now inter.now residual.now) row column result }
{
    let n = block.size;
    let source = block.source;
    let held = looked_at(source.levels, levels.len(), coeff.len());
    level_refusal(
        block.kind,
        n,
        block.precision.bit_depth,
        64,
        held,
        coeff.len(),
        inter.len(),
        residual.len(),
    )?;
    refusal::check(!source.levels, Refusal::WayMismatched)?;
    check_place(n, row, column)
}

// One level edit of an open block: sets the level, and writes the coefficient, the column count, the intermediate and the residual. A refused edit
// changes nothing.
pub fn edit_level(
    block: &mut EditedBlock,
    levels: &mut [i32],
    coeff: &mut [i32],
    inter: &mut [i32],
    residual: &mut [i32],
    row: usize,
    column: usize,
    level: i32,
) -> Result<Limits, Refusal>
    ensures { LevelEdits (level_edited block.old levels.old (buffers coeff.old inter.old residual.old) row column level) result block.new levels.new coeff.new inter.new residual.new }
{
    check_edit(*block, levels, coeff, inter, residual, row, column)?;
    let EditedBlock {
        kind,
        size: n,
        precision,
        source,
        ..
    } = *block;
    let depth = precision.bit_depth;
    let at = row * n + column;
    levels[at] = level;
    let scaled = coefficient_of(source, n, precision, at, level);
    let value = scaled.value;
    let range = coefficients::transform_range(precision);
    block_work::edit_stages(
        kind, n, depth, range, coeff, inter, residual, row, column, value,
    );
    block.columns = column_count(coeff, n);
    Ok(Limits {
        level: scaled.level_limited,
        result: scaled.result_limited,
    })
}

// Opens a block on lent levels: writes its coefficients, its intermediate and its residual. The record keeps the list.
// Kept: kind, size and precision apart: refusals, scaling and stages each take some of them, and would take a struct apart.
pub fn open_levels(
    kind: Kind,
    n: usize,
    precision: Precision,
    qp_prime: QpPrime,
    list: ScalingList,
    levels: &[i32],
    coeff: &mut [i32],
    inter: &mut [i32],
    residual: &mut [i32],
) -> Result<LevelsOpened, Refusal>
    ensures { LevelOpens (level_opened (on_levels_by kind n precision.bit_depth precision.extended qp_prime.0 (list_of list.entry)) levels.now (buffers coeff.old inter.old residual.old)) result coeff.new inter.new residual.new }
{
    level_refusal(
        kind,
        n,
        precision.bit_depth,
        list.len(),
        levels.len(),
        coeff.len(),
        inter.len(),
        residual.len(),
    )?;
    let limited = blocks::dequantize(levels, n, qp_prime, precision, list, coeff)?;
    let source = source_of(qp_prime, list);
    let block = block_work::open_from(kind, n, precision, source, coeff, inter, residual)?;
    Ok(LevelsOpened { limited, block })
}
