// What an opening fixes, and blocks that are opened with it.
use crate::buffers::Buffers;
use edited_block::{EditedBlock, Source};
use level_block::LevelsOpened;
use parameters::QpPrime;
use refusal::{Precision, Refusal};
use scaling_values::ScalingList;
use std::io::Read;
use transform_1d::Kind;

// How a block is opened. By a number past the first three as with a list, and a record that is made of it says that there is none.
#[derive(Clone, Copy)]
pub enum Way {
    Coefficients,
    Levels,
    ListedLevels,
    Other,
}

impl From<u8> for Way {
    fn from(number: u8) -> Way {
        match number {
            0 => Way::Coefficients,
            1 => Way::Levels,
            2 => Way::ListedLevels,
            _ => Way::Other,
        }
    }
}

// Kept: an array and how many of its entries are lent, since there is no heap; and DC and entries beside the way, since record() hands them over in every way.
#[derive(Clone, Copy)]
pub struct Setting {
    pub kind: Kind,
    pub n: usize,
    pub precision: Precision,
    pub way: Way,
    pub qp_prime: QpPrime,
    pub dc: u8,
    pub count: usize,
    pub entries: [u8; 64],
}

impl Setting {
    // What levels are scaled by, with so many of the entries lent.
    fn listed(&self, count: usize) -> ScalingList {
        match self.way {
            Way::Coefficients | Way::Levels => ScalingList::Flat,
            Way::ListedLevels | Way::Other => {
                ScalingList::Listed(&self.entries[..count.min(64)], self.dc)
            }
        }
    }

    // With as many as the case says.
    pub fn list(&self) -> ScalingList {
        self.listed(self.count)
    }

    // With all of them, as a list of edits gets it.
    pub fn whole_list(&self) -> ScalingList {
        self.listed(64)
    }

    // Levels and coefficients before an opening on the values, with marks in the other buffer.
    pub fn begun(&self, values: &[i32; 1040]) -> ([i32; 1040], [i32; 1040]) {
        match self.way {
            Way::Coefficients => ([7i32; 1040], *values),
            Way::Levels | Way::ListedLevels | Way::Other => (*values, [7i32; 1040]),
        }
    }
}

pub fn next(stdin: &mut impl Read) -> Setting {
    let kind = cases::next_kind(stdin);
    let n = cases::next::<usize, _>(stdin);
    let precision = cases::next_precision(stdin);
    let way = Way::from(cases::next::<u8, _>(stdin));
    let qp_prime = QpPrime(cases::next::<i32, _>(stdin));
    let dc = cases::next::<u8, _>(stdin);
    let count = cases::next_length(stdin, 64);
    let mut entries = [0u8; 64];
    cases::read_bytes(stdin, count, &mut entries);
    Setting {
        kind,
        n,
        precision,
        way,
        qp_prime,
        dc,
        count,
        entries,
    }
}

// The record that an opening would give, or refuse to.
pub fn record(setting: &Setting, columns: usize) -> EditedBlock {
    let (levels, listed) = match setting.way {
        Way::Coefficients => (false, false),
        Way::Levels | Way::Other => (true, false),
        Way::ListedLevels => (true, true),
    };
    EditedBlock {
        kind: setting.kind,
        size: setting.n,
        precision: setting.precision,
        columns,
        source: Source {
            levels,
            qp_prime: setting.qp_prime,
            listed,
            dc: setting.dc,
            entries: setting.entries,
        },
    }
}

// Kept: the buffers apart, here and below: tried with `Buffers`, and the borrow checker refused a slice that is read beside those that are written.
fn open_coefficients(
    setting: &Setting,
    coeff: &mut [i32],
    inter: &mut [i32],
    residual: &mut [i32],
) -> Result<LevelsOpened, Refusal> {
    let block = edited_block::open_block(
        setting.kind,
        setting.n,
        setting.precision,
        coeff,
        inter,
        residual,
    )?;
    Ok(LevelsOpened { limited: 0, block })
}

fn open_levels(
    setting: &Setting,
    levels: &mut [i32],
    coeff: &mut [i32],
    inter: &mut [i32],
    residual: &mut [i32],
) -> Result<LevelsOpened, Refusal> {
    level_block::open_levels(
        setting.kind,
        setting.n,
        setting.precision,
        setting.qp_prime,
        setting.list(),
        levels,
        coeff,
        inter,
        residual,
    )
}

// Opens on the levels or coefficients in the buffers, by the setting's way.
pub fn open(setting: &Setting, buffers: &mut Buffers) -> Result<LevelsOpened, Refusal> {
    match setting.way {
        Way::Coefficients => {
            open_coefficients(setting, buffers.coeff, buffers.inter, buffers.residual)
        }
        Way::Levels | Way::ListedLevels | Way::Other => open_levels(
            setting,
            buffers.levels,
            buffers.coeff,
            buffers.inter,
            buffers.residual,
        ),
    }
}

// Kind, size, depth, flag and column count; whether it was opened on levels, QP', list flag, DC and entries.
pub fn put_record(rt: &impl Print, block: EditedBlock) {
    let kind = block.kind;
    cases::put_flag(rt, kind == Kind::Dst);
    cases::put(rt, block.size);
    cases::put(rt, block.precision.bit_depth);
    cases::put_flag(rt, block.precision.extended);
    cases::put(rt, block.columns);
    let source = block.source;
    let qp_prime = source.qp_prime;
    let entries = source.entries;
    cases::put_flag(rt, source.levels);
    cases::put(rt, qp_prime.0);
    cases::put_flag(rt, source.listed);
    cases::put(rt, source.dc);
    cases::put_all(rt, &entries);
}

// The record of an opening, zeros where it was refused.
pub fn block_of(opened: Result<LevelsOpened, Refusal>) -> EditedBlock {
    opened.map_or(edited_block::zero_block(), |told| told.block)
}

// An opening's answer alone: number, place, row, column, and how many were limited.
pub fn put_answer(rt: &impl Print, opened: Result<LevelsOpened, Refusal>) {
    cases::put_count(rt, opened.map(|told| told.limited));
}

// The answer and the record.
pub fn put_opened(rt: &impl Print, opened: Result<LevelsOpened, Refusal>) {
    put_answer(rt, opened);
    put_record(rt, block_of(opened));
}
