// Edited blocks: the record goes in as one struct and comes back in the answer, zeros where an opening was refused.
// Kept: C lends and hands over apart what belongs together: depth and flag, a list and its DC, a block's buffers, the slices of a list of edits; the kind
// is a flag, and an opening with a list is a function of its own, with as many lines as it has parameters.
ghost use Rattle.std.specs.Prelude.{◌≡◌, length};
ghost use Rattle.refusal.specs.Outcome.{answer as answer_outcome, outcome};
ghost use Rattle.transform_1d.specs.Kinds.{is_dst};
ghost use Rattle.block_rules.specs.Edit.{zero_block, valued, buffers, edited, refreshed};
ghost use Rattle.block_rules.specs.Opening.{on_coefficients, opened_as};
ghost use Rattle.block_rules.specs.Level.{on_levels, on_scaled_levels, levels_opened, level_opened, level_edited, no_limits};
ghost use Rattle.edited_steps.specs.Steps.{slices, edit_count, edits_of};
ghost use Rattle.edited_list.specs.Listed.{listed_as};
ghost use Rattle.c_api.specs.Blocks.{Writes};
ghost use Rattle.c_api.specs.Edits.{kind_of, of_block, BlockIs, LevelEditIs, block_of_list, Opens, Edits, LevelOpens, LevelEdits, Lists};

use crate::{Answered, Block, BlockAnswered, LevelEditAnswered, ListAnswered};
use block_rules::{LevelsOpened, Limits};
use edited_block::{EditedBlock, Source};
use edited_list::Listed;
use parameters::QpPrime;
use refusal::{Precision, Refusal};
use scaling_values::ScalingList;
use transform_1d::Kind;

// The kind that C hands over as a flag.
// Kept: a `From<bool>` can only stand where `Kind` is declared, and that true is the DST is C's alone (the parameter `dst`); so for `is_dst`.
pub(crate) fn kind_of(dst: bool) -> Kind
    ensures { result ≡ kind_of dst }
{
    if dst { Kind::Dst } else { Kind::Dct }
}

fn is_dst(kind: Kind) -> bool
    ensures { result ≡ is_dst kind }
{
    match kind {
        Kind::Dct => false,
        Kind::Dst => true,
    }
}

// The record that C gave.
impl From<Block> for EditedBlock {
    ghost from_gives = { λ given block. block ≡ of_block given };

    fn from(given: Block) -> EditedBlock {
        let entries = given.entries;
        EditedBlock {
            kind: kind_of(given.dst),
            size: given.size,
            precision: Precision::new(given.depth, given.extended),
            columns: given.columns,
            source: Source {
                levels: given.levels,
                qp_prime: QpPrime(given.qp_prime),
                listed: given.listed,
                dc: given.dc,
                entries,
            },
        }
    }
}

// The record that C gets.
impl From<EditedBlock> for Block {
    ghost from_gives = { λ block told. of_block told ≡ block };

    fn from(block: EditedBlock) -> Block {
        let source = block.source;
        let entries = source.entries;
        Block {
            dst: is_dst(block.kind),
            size: block.size,
            depth: block.precision.bit_depth,
            extended: block.precision.extended,
            columns: block.columns,
            levels: source.levels,
            qp_prime: source.qp_prime.0,
            listed: source.listed,
            dc: source.dc,
            entries,
        }
    }
}

// What C gets of an opening on coefficients: zeros where it was refused.
impl From<Result<EditedBlock, Refusal>> for BlockAnswered {
    ghost from_gives = { λ opened told. let o = outcome zero_block opened in BlockIs told (valued 0 o) o.value };

    fn from(opened: Result<EditedBlock, Refusal>) -> BlockAnswered {
        match opened {
            Ok(block) => block_unlimited(Ok(()), block),
            Err(why) => block_unlimited(Err(why), edited_block::zero_block()),
        }
    }
}

// The same of an opening on levels.
impl From<Result<LevelsOpened, Refusal>> for BlockAnswered {
    ghost from_gives = { λ opened told. let o = outcome (levels_opened 0 zero_block) opened in BlockIs told (valued o.value.limited o) o.value.block };

    fn from(opened: Result<LevelsOpened, Refusal>) -> BlockAnswered {
        match opened {
            Ok(o) => BlockAnswered {
                limited: o.limited,
                ..block_unlimited(Ok(()), o.block)
            },
            Err(why) => block_unlimited(Err(why), edited_block::zero_block()),
        }
    }
}

// The answer and the record of a call that limits nothing.
// Kept: no From, here and below: the record stands beside the answer whether or not that is a refusal, and a From of a pair is no plainer.
fn block_unlimited(given: Result<(), Refusal>, block: EditedBlock) -> BlockAnswered
    ensures { BlockIs result (valued 0 (answer_outcome given)) block }
{
    let told = Answered::from(given);
    BlockAnswered {
        number: told.number,
        row: told.row,
        column: told.column,
        limited: 0,
        place: told.place,
        block: block.into(),
    }
}

fn level_edit_answered(given: Result<Limits, Refusal>, block: EditedBlock) -> LevelEditAnswered
    ensures { LevelEditIs result (outcome no_limits given) block }
{
    match given {
        Ok(limits) => LevelEditAnswered {
            number: 0,
            row: 0,
            column: 0,
            level_limited: limits.level,
            result_limited: limits.result,
            place: 0,
            block: block.into(),
        },
        Err(why) => {
            let no = Answered::from(why);
            LevelEditAnswered {
                number: no.number,
                row: no.row,
                column: no.column,
                level_limited: false,
                result_limited: false,
                place: no.place,
                block: block.into(),
            }
        }
    }
}

// Opens a block on coefficients: writes its intermediate and its residual.
pub fn residual_open_block(
    dst: bool,
    n: usize,
    bit_depth: u8,
    extended_precision: bool,
    coeff: &[i32],
    inter: &mut [i32],
    residual: &mut [i32],
) -> BlockAnswered
    ensures { Opens (opened_as (on_coefficients (kind_of dst) n bit_depth extended_precision) (buffers coeff.now inter.old residual.old)) result inter.new residual.new }
{
    let precision = Precision::new(bit_depth, extended_precision);
    BlockAnswered::from(edited_block::open_block(
        kind_of(dst),
        n,
        precision,
        coeff,
        inter,
        residual,
    ))
}

// Opens a block on levels without a list: writes its coefficients, its intermediate and its residual.
pub fn residual_open_levels(
    dst: bool,
    n: usize,
    bit_depth: u8,
    extended_precision: bool,
    qp_prime: i32,
    levels: &[i32],
    coeff: &mut [i32],
    inter: &mut [i32],
    residual: &mut [i32],
) -> BlockAnswered
    ensures { LevelOpens (level_opened (on_levels (kind_of dst) n bit_depth extended_precision qp_prime) levels.now (buffers coeff.old inter.old residual.old)) result coeff.new inter.new residual.new }
{
    let precision = Precision::new(bit_depth, extended_precision);
    BlockAnswered::from(level_block::open_levels(
        kind_of(dst),
        n,
        precision,
        QpPrime(qp_prime),
        ScalingList::Flat,
        levels,
        coeff,
        inter,
        residual,
    ))
}

// The same with a list, which the record keeps.
pub fn residual_open_levels_scaled(
    dst: bool,
    n: usize,
    bit_depth: u8,
    extended_precision: bool,
    qp_prime: i32,
    list: &[u8],
    dc: u8,
    levels: &[i32],
    coeff: &mut [i32],
    inter: &mut [i32],
    residual: &mut [i32],
) -> BlockAnswered
    ensures { LevelOpens (level_opened (on_scaled_levels (kind_of dst) n bit_depth extended_precision qp_prime list.now dc) levels.now (buffers coeff.old inter.old residual.old)) result coeff.new inter.new residual.new }
{
    let precision = Precision::new(bit_depth, extended_precision);
    BlockAnswered::from(level_block::open_levels(
        kind_of(dst),
        n,
        precision,
        QpPrime(qp_prime),
        ScalingList::Listed(list, dc),
        levels,
        coeff,
        inter,
        residual,
    ))
}

// One edit of a coefficient; a refused one hands back the record that it was given.
pub fn residual_edit(
    block: Block,
    coeff: &mut [i32],
    inter: &mut [i32],
    residual: &mut [i32],
    row: usize,
    column: usize,
    value: i32,
) -> BlockAnswered
    ensures { Edits (edited (of_block block) (buffers coeff.old inter.old residual.old) row column value) result coeff.new inter.new residual.new }
{
    let mut held = EditedBlock::from(block);
    let given = edited_block::edit(&mut held, coeff, inter, residual, row, column, value);
    block_unlimited(given, held)
}

// One edit of a level of a block that was opened on levels.
pub fn residual_edit_level(
    block: Block,
    levels: &mut [i32],
    coeff: &mut [i32],
    inter: &mut [i32],
    residual: &mut [i32],
    row: usize,
    column: usize,
    level: i32,
) -> LevelEditAnswered
    ensures { LevelEdits (level_edited (of_block block) levels.old (buffers coeff.old inter.old residual.old) row column level) result levels.new coeff.new inter.new residual.new }
{
    let mut held = EditedBlock::from(block);
    let given = level_block::edit_level(
        &mut held, levels, coeff, inter, residual, row, column, level,
    );
    level_edit_answered(given, held)
}

// What C gets of a list: zeros where the opening was refused.
impl From<Result<Listed, Refusal>> for ListAnswered {
    ghost from_gives = { λ listed told. let l = outcome (listed_as 0 zero_block 0) listed in (BlockIs (block_of_list told) (valued l.value.opened.limited l) l.value.opened.block) × (told.edits ≡ l.value.edits) };

    fn from(listed: Result<Listed, Refusal>) -> ListAnswered {
        let (opened, edits) = match listed {
            Ok(l) => (Ok(l.opened), l.edits),
            Err(why) => (Err(why), 0),
        };
        let told = BlockAnswered::from(opened);
        ListAnswered {
            number: told.number,
            row: told.row,
            column: told.column,
            limited: told.limited,
            place: told.place,
            block: told.block,
            edits,
        }
    }
}

// Opens a block on coefficients and makes a list of edits, of levels where ways has true; each edit's answer goes to numbers, and the row and column
// that it names to named and across; limits gets 1 where the level was limited, 2 where the result was, 3 where both were. The list is as long as the
// shortest of the eight slices.
pub fn residual_open_and_edit(
    dst: bool,
    n: usize,
    bit_depth: u8,
    extended_precision: bool,
    levels: &mut [i32],
    coeff: &mut [i32],
    inter: &mut [i32],
    residual: &mut [i32],
    rows: &[usize],
    columns: &[usize],
    values: &[i32],
    ways: &[bool],
    numbers: &mut [u8],
    named: &mut [u8],
    across: &mut [u8],
    limits: &mut [u8],
) -> ListAnswered
    ensures { Lists (on_coefficients (kind_of dst) n bit_depth extended_precision) levels.old (buffers coeff.old inter.old residual.old) (edits_of (edit_count (length rows.now) (length columns.now) (length values.now) (length ways.now) (slices numbers.old named.old across.old limits.old)) rows.now columns.now values.now ways.now) (slices numbers.old named.old across.old limits.old) result levels.new (buffers coeff.new inter.new residual.new) (slices numbers.new named.new across.new limits.new) }
{
    let precision = Precision::new(bit_depth, extended_precision);
    ListAnswered::from(edited_list::open_and_edit(
        kind_of(dst),
        n,
        precision,
        levels,
        coeff,
        inter,
        residual,
        rows,
        columns,
        values,
        ways,
        numbers,
        named,
        across,
        limits,
    ))
}

// The same of a block that is opened on levels without a list.
pub fn residual_open_levels_and_edit(
    dst: bool,
    n: usize,
    bit_depth: u8,
    extended_precision: bool,
    qp_prime: i32,
    levels: &mut [i32],
    coeff: &mut [i32],
    inter: &mut [i32],
    residual: &mut [i32],
    rows: &[usize],
    columns: &[usize],
    values: &[i32],
    ways: &[bool],
    numbers: &mut [u8],
    named: &mut [u8],
    across: &mut [u8],
    limits: &mut [u8],
) -> ListAnswered
    ensures { Lists (on_levels (kind_of dst) n bit_depth extended_precision qp_prime) levels.old (buffers coeff.old inter.old residual.old) (edits_of (edit_count (length rows.now) (length columns.now) (length values.now) (length ways.now) (slices numbers.old named.old across.old limits.old)) rows.now columns.now values.now ways.now) (slices numbers.old named.old across.old limits.old) result levels.new (buffers coeff.new inter.new residual.new) (slices numbers.new named.new across.new limits.new) }
{
    let precision = Precision::new(bit_depth, extended_precision);
    ListAnswered::from(edited_list::open_levels_and_edit(
        kind_of(dst),
        n,
        precision,
        QpPrime(qp_prime),
        ScalingList::Flat,
        levels,
        coeff,
        inter,
        residual,
        rows,
        columns,
        values,
        ways,
        numbers,
        named,
        across,
        limits,
    ))
}

// The same of a block that is opened on levels with a list.
pub fn residual_open_levels_scaled_and_edit(
    dst: bool,
    n: usize,
    bit_depth: u8,
    extended_precision: bool,
    qp_prime: i32,
    list: &[u8],
    dc: u8,
    levels: &mut [i32],
    coeff: &mut [i32],
    inter: &mut [i32],
    residual: &mut [i32],
    rows: &[usize],
    columns: &[usize],
    values: &[i32],
    ways: &[bool],
    numbers: &mut [u8],
    named: &mut [u8],
    across: &mut [u8],
    limits: &mut [u8],
) -> ListAnswered
    ensures { Lists (on_scaled_levels (kind_of dst) n bit_depth extended_precision qp_prime list.now dc) levels.old (buffers coeff.old inter.old residual.old) (edits_of (edit_count (length rows.now) (length columns.now) (length values.now) (length ways.now) (slices numbers.old named.old across.old limits.old)) rows.now columns.now values.now ways.now) (slices numbers.old named.old across.old limits.old) result levels.new (buffers coeff.new inter.new residual.new) (slices numbers.new named.new across.new limits.new) }
{
    let precision = Precision::new(bit_depth, extended_precision);
    ListAnswered::from(edited_list::open_levels_and_edit(
        kind_of(dst),
        n,
        precision,
        QpPrime(qp_prime),
        ScalingList::Listed(list, dc),
        levels,
        coeff,
        inter,
        residual,
        rows,
        columns,
        values,
        ways,
        numbers,
        named,
        across,
        limits,
    ))
}

// The residual of an intermediate: stage two alone.
pub fn residual_refresh_residual(
    dst: bool,
    n: usize,
    bit_depth: u8,
    extended_precision: bool,
    inter: &[i32],
    residual: &mut [i32],
) -> Answered
    ensures { Writes result residual.new (refreshed (kind_of dst) n bit_depth extended_precision inter.now residual.old) }
{
    let precision = Precision::new(bit_depth, extended_precision);
    edited_block::refresh_residual(kind_of(dst), n, precision, inter, residual).into()
}
