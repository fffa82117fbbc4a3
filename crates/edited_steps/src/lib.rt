// Edits of an open block, lent as slices, made one after the other, and their answers put into slices: what a call with a list of edits ends in.
#![tactic(auto)]

ghost use Rattle.std.specs.Prelude.{◌≡◌, min, ◌<◌, length};
ghost use Rattle.refusal.specs.Outcome.{outcome};
ghost use Rattle.block_rules.specs.Edit.{buffers};
ghost use Rattle.edited_history.specs.Run.{held_edited, ran_from};
ghost use Rattle.block_rules.specs.Level.{no_limits, LevelEdits};
ghost use Rattle.edited_steps.specs.Steps.{slices, limits_number, put_one, edit_count, edit_of, edits_of, ListNeeds, RunsFrom, RunsAfter, RunsGiven};

use block_rules::{EditedBlock, LevelsOpened, Limits};
use refusal::Refusal;

// What the opening limited with the record after the last edit, and how many edits were given to the block.
#[derive(Clone, Copy)]
pub struct Listed {
    pub opened: LevelsOpened,
    pub edits: usize,
}

// What was limited, as the number that C gets.
// Kept: numbers for a pair of flags, since an answer of a list has one byte for it in C (limits).
fn limits_number(limits: Limits) -> u8
    ensures { result ≡ limits_number limits }
{
    match (limits.level, limits.result) {
        (true, true) => 3,
        (true, false) => 1,
        (false, true) => 2,
        (false, false) => 0,
    }
}

// What an answer puts into the four slices.
#[derive(Clone, Copy)]
struct Parts {
    number: u8,
    row: u8,
    column: u8,
    limits: u8,
}

impl From<Result<Limits, Refusal>> for Parts {
    ghost from_gives = { λ given parts. let o = outcome no_limits given in (parts.number ≡ o.number) × (parts.row ≡ o.row) × (parts.column ≡ o.column) × (parts.limits ≡ limits_number o.value) };

    fn from(given: Result<Limits, Refusal>) -> Parts {
        match given {
            Ok(done) => Parts {
                number: 0,
                row: 0,
                column: 0,
                limits: limits_number(done),
            },
            Err(why) => Parts {
                number: why.number(),
                row: why.row(),
                column: why.column(),
                limits: 0,
            },
        }
    }
}

// One answer into the four slices.
// Kept: the slices of a list of edits and of its answers apart, here and below: C lends each, and there is no heap to pair them in.
fn put_answer(
    given: Result<Limits, Refusal>,
    i: usize,
    numbers: &mut [u8],
    named: &mut [u8],
    across: &mut [u8],
    limits: &mut [u8],
)
    requires { (i < length numbers.old) × (i < length named.old) × (i < length across.old) × (i < length limits.old) }
    ensures { (slices numbers.new named.new across.new limits.new) ≡ put_one (slices numbers.old named.old across.old limits.old) i (outcome no_limits given) }
{
    let parts = Parts::from(given);
    numbers[i] = parts.number;
    named[i] = parts.row;
    across[i] = parts.column;
    limits[i] = parts.limits;
}

// As many edits as every slice has.
fn edit_count(
    rows: usize,
    columns: usize,
    values: usize,
    ways: usize,
    numbers: &[u8],
    named: &[u8],
    across: &[u8],
    limits: &[u8],
) -> usize
    ensures { result ≡ edit_count rows columns values ways (slices numbers.now named.now across.now limits.now) }
{
    rows.min(columns).min(values.min(ways)).min(
        numbers
            .len()
            .min(named.len())
            .min(across.len().min(limits.len())),
    )
}

// One edit, of a level or of a coefficient.
// Kept: a flag, as C lends one for each edit (ways).
// Kept: the buffers apart, here and below: a struct of lent slices would have to promise for each slice that it stays the same one (its ghost_name).
fn edit_one(
    block: &mut EditedBlock,
    levels: &mut [i32],
    coeff: &mut [i32],
    inter: &mut [i32],
    residual: &mut [i32],
    row: usize,
    column: usize,
    value: i32,
    level: bool,
) -> Result<Limits, Refusal>
    ensures { LevelEdits (held_edited block.old levels.old (buffers coeff.old inter.old residual.old) (edit_of row column value level)) result block.new levels.new coeff.new inter.new residual.new }
{
    if level {
        return level_block::edit_level(block, levels, coeff, inter, residual, row, column, value);
    }
    edited_block::edit(block, coeff, inter, residual, row, column, value)?;
    Ok(Limits {
        level: false,
        result: false,
    })
}

// Edits from the slices, one after the other; each gets the record and the buffers as the one before left them.
fn edit_each(
    block: &mut EditedBlock,
    levels: &mut [i32],
    coeff: &mut [i32],
    inter: &mut [i32],
    residual: &mut [i32],
    rows: &[usize],
    columns: &[usize],
    values: &[i32],
    ways: &[bool],
    numbers: &mut [u8],
    named: &mut [u8],
    across: &mut [u8],
    limits: &mut [u8],
    count: usize,
)
    requires { ListNeeds count (length rows.now) (length columns.now) (length values.now) (length ways.now) (slices numbers.old named.old across.old limits.old) }
    ensures { RunsFrom (ran_from block.old levels.old (buffers coeff.old inter.old residual.old) (edits_of count rows.now columns.now values.now ways.now)) (slices numbers.old named.old across.old limits.old) block.new levels.new coeff.new inter.new residual.new (slices numbers.new named.new across.new limits.new) }
{
    for i in 0..count {
        let given = edit_one(
            block, levels, coeff, inter, residual, rows[i], columns[i], values[i], ways[i],
        );
        put_answer(given, i, numbers, named, across, limits);
    }
}

// The edits after an opening that was accepted.
fn edits_made(
    opened: LevelsOpened,
    levels: &mut [i32],
    coeff: &mut [i32],
    inter: &mut [i32],
    residual: &mut [i32],
    rows: &[usize],
    columns: &[usize],
    values: &[i32],
    ways: &[bool],
    numbers: &mut [u8],
    named: &mut [u8],
    across: &mut [u8],
    limits: &mut [u8],
) -> Listed
    ensures { RunsAfter opened levels.old (buffers coeff.old inter.old residual.old) (edits_of (edit_count (length rows.now) (length columns.now) (length values.now) (length ways.now) (slices numbers.old named.old across.old limits.old)) rows.now columns.now values.now ways.now) (slices numbers.old named.old across.old limits.old) result levels.new coeff.new inter.new residual.new (slices numbers.new named.new across.new limits.new) }
{
    let edits = edit_count(
        rows.len(),
        columns.len(),
        values.len(),
        ways.len(),
        numbers,
        named,
        across,
        limits,
    );
    let mut block = opened.block;
    edit_each(
        &mut block, levels, coeff, inter, residual, rows, columns, values, ways, numbers, named,
        across, limits, edits,
    );
    Listed {
        opened: LevelsOpened { block, ..opened },
        edits,
    }
}

// The edits after an opening; after a refused one there is none.
pub fn edit_after(
    given: Result<LevelsOpened, Refusal>,
    levels: &mut [i32],
    coeff: &mut [i32],
    inter: &mut [i32],
    residual: &mut [i32],
    rows: &[usize],
    columns: &[usize],
    values: &[i32],
    ways: &[bool],
    numbers: &mut [u8],
    named: &mut [u8],
    across: &mut [u8],
    limits: &mut [u8],
) -> Result<Listed, Refusal>
    ensures { RunsGiven given levels.old (buffers coeff.old inter.old residual.old) (edits_of (edit_count (length rows.now) (length columns.now) (length values.now) (length ways.now) (slices numbers.old named.old across.old limits.old)) rows.now columns.now values.now ways.now) (slices numbers.old named.old across.old limits.old) result levels.new (buffers coeff.new inter.new residual.new) (slices numbers.new named.new across.new limits.new) }
{
    let opened = given?;
    Ok(edits_made(
        opened, levels, coeff, inter, residual, rows, columns, values, ways, numbers, named,
        across, limits,
    ))
}
