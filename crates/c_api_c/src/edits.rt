// Edited blocks: the record goes in as one struct and comes back in the answer, zeros where an opening was refused.
// Kept: C lends and hands over apart what belongs together: depth and flag, a list and its DC, a block's buffers, the slices of a list of edits; the kind
// is a flag, and an opening with a list is a function of its own, with as many lines as it has parameters.
ghost use Rattle.std.specs.Prelude.{length};
ghost use Rattle.block_rules.specs.Edit.{buffers, edited, refreshed};
ghost use Rattle.block_rules.specs.Opening.{on_coefficients, opened_as};
ghost use Rattle.block_rules.specs.Level.{on_levels, on_scaled_levels, level_opened, level_edited};
ghost use Rattle.edited_steps.specs.Steps.{slices, edit_count, edits_of};
ghost use Rattle.c_api.specs.Blocks.{Writes};
ghost use Rattle.c_api.specs.Edits.{kind_of, of_block, Opens, Edits, LevelOpens, LevelEdits, Lists};

use c_api::{Answered, Block, BlockAnswered, LevelEditAnswered, ListAnswered};

// Opens a block on coefficients: writes its intermediate and its residual.
#[unsafe(no_mangle)]
pub extern "C" fn residual_open_block(
    dst: bool,
    n: usize,
    bit_depth: u8,
    extended_precision: bool,
    coeff: &[i32],
    inter: &mut [i32],
    residual: &mut [i32],
) -> BlockAnswered
    ensures { Opens (opened_as (on_coefficients (kind_of dst) n bit_depth extended_precision) (buffers coeff.now inter.old residual.old)) result inter.new residual.new }
{
    c_api::residual_open_block(
        dst,
        n,
        bit_depth,
        extended_precision,
        coeff,
        inter,
        residual,
    )
}

// Opens a block on levels without a list: writes its coefficients, its intermediate and its residual.
#[unsafe(no_mangle)]
pub extern "C" fn residual_open_levels(
    dst: bool,
    n: usize,
    bit_depth: u8,
    extended_precision: bool,
    qp_prime: i32,
    levels: &[i32],
    coeff: &mut [i32],
    inter: &mut [i32],
    residual: &mut [i32],
) -> BlockAnswered
    ensures { LevelOpens (level_opened (on_levels (kind_of dst) n bit_depth extended_precision qp_prime) levels.now (buffers coeff.old inter.old residual.old)) result coeff.new inter.new residual.new }
{
    c_api::residual_open_levels(
        dst,
        n,
        bit_depth,
        extended_precision,
        qp_prime,
        levels,
        coeff,
        inter,
        residual,
    )
}

// The same with a list, which the record keeps.
#[unsafe(no_mangle)]
pub extern "C" fn residual_open_levels_scaled(
    dst: bool,
    n: usize,
    bit_depth: u8,
    extended_precision: bool,
    qp_prime: i32,
    list: &[u8],
    dc: u8,
    levels: &[i32],
    coeff: &mut [i32],
    inter: &mut [i32],
    residual: &mut [i32],
) -> BlockAnswered
    ensures { LevelOpens (level_opened (on_scaled_levels (kind_of dst) n bit_depth extended_precision qp_prime list.now dc) levels.now (buffers coeff.old inter.old residual.old)) result coeff.new inter.new residual.new }
{
    c_api::residual_open_levels_scaled(
        dst,
        n,
        bit_depth,
        extended_precision,
        qp_prime,
        list,
        dc,
        levels,
        coeff,
        inter,
        residual,
    )
}

// One edit of a coefficient; a refused one hands back the record that it was given.
#[unsafe(no_mangle)]
pub extern "C" fn residual_edit(
    block: Block,
    coeff: &mut [i32],
    inter: &mut [i32],
    residual: &mut [i32],
    row: usize,
    column: usize,
    value: i32,
) -> BlockAnswered
    ensures { Edits (edited (of_block block) (buffers coeff.old inter.old residual.old) row column value) result coeff.new inter.new residual.new }
{
    c_api::residual_edit(block, coeff, inter, residual, row, column, value)
}

// One edit of a level of a block that was opened on levels.
#[unsafe(no_mangle)]
pub extern "C" fn residual_edit_level(
    block: Block,
    levels: &mut [i32],
    coeff: &mut [i32],
    inter: &mut [i32],
    residual: &mut [i32],
    row: usize,
    column: usize,
    level: i32,
) -> LevelEditAnswered
    ensures { LevelEdits (level_edited (of_block block) levels.old (buffers coeff.old inter.old residual.old) row column level) result levels.new coeff.new inter.new residual.new }
{
    c_api::residual_edit_level(block, levels, coeff, inter, residual, row, column, level)
}

// Opens a block on coefficients and makes a list of edits, of levels where ways has true; each edit's answer goes to numbers, and the row and column
// that it names to named and across; limits gets 1 where the level was limited, 2 where the result was, 3 where both were. The list is as long as the
// shortest of the eight slices.
#[unsafe(no_mangle)]
pub extern "C" fn residual_open_and_edit(
    dst: bool,
    n: usize,
    bit_depth: u8,
    extended_precision: bool,
    levels: &mut [i32],
    coeff: &mut [i32],
    inter: &mut [i32],
    residual: &mut [i32],
    rows: &[usize],
    columns: &[usize],
    values: &[i32],
    ways: &[bool],
    numbers: &mut [u8],
    named: &mut [u8],
    across: &mut [u8],
    limits: &mut [u8],
) -> ListAnswered
    ensures { Lists (on_coefficients (kind_of dst) n bit_depth extended_precision) levels.old (buffers coeff.old inter.old residual.old) (edits_of (edit_count (length rows.now) (length columns.now) (length values.now) (length ways.now) (slices numbers.old named.old across.old limits.old)) rows.now columns.now values.now ways.now) (slices numbers.old named.old across.old limits.old) result levels.new (buffers coeff.new inter.new residual.new) (slices numbers.new named.new across.new limits.new) }
{
    c_api::residual_open_and_edit(
        dst,
        n,
        bit_depth,
        extended_precision,
        levels,
        coeff,
        inter,
        residual,
        rows,
        columns,
        values,
        ways,
        numbers,
        named,
        across,
        limits,
    )
}

// The same of a block that is opened on levels without a list.
#[unsafe(no_mangle)]
pub extern "C" fn residual_open_levels_and_edit(
    dst: bool,
    n: usize,
    bit_depth: u8,
    extended_precision: bool,
    qp_prime: i32,
    levels: &mut [i32],
    coeff: &mut [i32],
    inter: &mut [i32],
    residual: &mut [i32],
    rows: &[usize],
    columns: &[usize],
    values: &[i32],
    ways: &[bool],
    numbers: &mut [u8],
    named: &mut [u8],
    across: &mut [u8],
    limits: &mut [u8],
) -> ListAnswered
    ensures { Lists (on_levels (kind_of dst) n bit_depth extended_precision qp_prime) levels.old (buffers coeff.old inter.old residual.old) (edits_of (edit_count (length rows.now) (length columns.now) (length values.now) (length ways.now) (slices numbers.old named.old across.old limits.old)) rows.now columns.now values.now ways.now) (slices numbers.old named.old across.old limits.old) result levels.new (buffers coeff.new inter.new residual.new) (slices numbers.new named.new across.new limits.new) }
{
    c_api::residual_open_levels_and_edit(
        dst,
        n,
        bit_depth,
        extended_precision,
        qp_prime,
        levels,
        coeff,
        inter,
        residual,
        rows,
        columns,
        values,
        ways,
        numbers,
        named,
        across,
        limits,
    )
}

// The same of a block that is opened on levels with a list.
#[unsafe(no_mangle)]
pub extern "C" fn residual_open_levels_scaled_and_edit(
    dst: bool,
    n: usize,
    bit_depth: u8,
    extended_precision: bool,
    qp_prime: i32,
    list: &[u8],
    dc: u8,
    levels: &mut [i32],
    coeff: &mut [i32],
    inter: &mut [i32],
    residual: &mut [i32],
    rows: &[usize],
    columns: &[usize],
    values: &[i32],
    ways: &[bool],
    numbers: &mut [u8],
    named: &mut [u8],
    across: &mut [u8],
    limits: &mut [u8],
) -> ListAnswered
    ensures { Lists (on_scaled_levels (kind_of dst) n bit_depth extended_precision qp_prime list.now dc) levels.old (buffers coeff.old inter.old residual.old) (edits_of (edit_count (length rows.now) (length columns.now) (length values.now) (length ways.now) (slices numbers.old named.old across.old limits.old)) rows.now columns.now values.now ways.now) (slices numbers.old named.old across.old limits.old) result levels.new (buffers coeff.new inter.new residual.new) (slices numbers.new named.new across.new limits.new) }
{
    c_api::residual_open_levels_scaled_and_edit(
        dst,
        n,
        bit_depth,
        extended_precision,
        qp_prime,
        list,
        dc,
        levels,
        coeff,
        inter,
        residual,
        rows,
        columns,
        values,
        ways,
        numbers,
        named,
        across,
        limits,
    )
}

// The residual of an intermediate: stage two alone.
#[unsafe(no_mangle)]
pub extern "C" fn residual_refresh_residual(
    dst: bool,
    n: usize,
    bit_depth: u8,
    extended_precision: bool,
    inter: &[i32],
    residual: &mut [i32],
) -> Answered
    ensures { Writes result residual.new (refreshed (kind_of dst) n bit_depth extended_precision inter.now residual.old) }
{
    c_api::residual_refresh_residual(dst, n, bit_depth, extended_precision, inter, residual)
}
