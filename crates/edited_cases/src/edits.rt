// One edit of either kind.
use crate::buffers::Buffers;
use edited_block::EditedBlock;
use level_block::Limits;
use refusal::Refusal;
use std::io::Read;

// Kept: a flag, as the list of edits has it for C (ways).
#[derive(Clone, Copy)]
pub struct Edit {
    pub row: usize,
    pub column: usize,
    pub value: i32,
    pub level: bool,
}

pub fn make(block: &mut EditedBlock, edit: Edit, buffers: &mut Buffers) -> Result<Limits, Refusal> {
    if edit.level {
        return level_block::edit_level(
            block,
            buffers.levels,
            buffers.coeff,
            buffers.inter,
            buffers.residual,
            edit.row,
            edit.column,
            edit.value,
        );
    }
    edited_block::edit(
        block,
        buffers.coeff,
        buffers.inter,
        buffers.residual,
        edit.row,
        edit.column,
        edit.value,
    )?;
    Ok(Limits {
        level: false,
        result: false,
    })
}

fn put_limits(rt: &impl Print, limits: Limits) {
    cases::put_flag(rt, limits.level);
    cases::put_flag(rt, limits.result);
}

// Number, place, row, column, whether the level was limited, and whether the result was.
pub fn put_edit(rt: &impl Print, answer: Result<Limits, Refusal>) {
    match answer {
        Ok(limits) => {
            cases::put_answer(rt, Ok(()));
            put_limits(rt, limits);
        }
        Err(why) => {
            cases::put_refusal(rt, why);
            cases::put_flag(rt, false);
            cases::put_flag(rt, false);
        }
    }
}

// A byte each.
pub fn read_flags(stdin: &mut impl Read, flags: &mut [bool]) {
    for flag in flags {
        *flag = cases::next::<u8, _>(stdin) != 0;
    }
}
