// A hundred random edits of both kinds. A case goes on with how many levels or coefficients there are, and these; then rows and columns, a byte each, where 255 is the
// largest number there is, values, the indices that the edits name, two bytes each, and whether each is of a level, a byte each. After each edit the residual is compared
// with a fresh decode, the coefficients of levels with a fresh scaling, intermediate and record with a fresh opening, and what was edited with a copy that is kept
// here; its answer and the column count are written. Then the same list goes through one call.
ghost use Rattle.std.specs.Prelude.{◌<◌};

use crate::buffers::Buffers;
use crate::edits::Edit;
use crate::lists::{Given, Told};
use crate::settings::Setting;
use crate::{compare, edits, lists, settings};
use edited_block::EditedBlock;
use std::io::Read;

// Kept: one call gets these edits as slices side by side, since C lends them so; places stands beside them for the copy that is kept here.
#[derive(Clone, Copy)]
struct Edits {
    rows: [usize; 100],
    columns: [usize; 100],
    values: [i32; 100],
    places: [usize; 100],
    ways: [bool; 100],
}

fn next_edits(stdin: &mut impl Read) -> Edits {
    let mut rows = [0usize; 100];
    let mut columns = [0usize; 100];
    let mut values = [0i32; 100];
    let mut places = [0usize; 100];
    let mut ways = [false; 100];
    cases::read_named(stdin, &mut rows);
    cases::read_named(stdin, &mut columns);
    cases::read_all(stdin, &mut values);
    cases::read_indices(stdin, &mut places);
    edits::read_flags(stdin, &mut ways);
    Edits {
        rows,
        columns,
        values,
        places,
        ways,
    }
}

fn edit_at(edits: &Edits, i: usize) -> Edit
    requires { i < 100 }
{
    Edit {
        row: edits.rows[i],
        column: edits.columns[i],
        value: edits.values[i],
        level: edits.ways[i],
    }
}

// One edit and what is compared after it; answers whether all of it was as it should be. The copy is kept where the edit was accepted.
fn turn(
    rt: &impl Print,
    setting: &Setting,
    block: &mut EditedBlock,
    edit: Edit,
    place: usize,
    buffers: &mut Buffers,
    kept: &mut [i32; 1040],
) -> bool {
    let answer = edits::make(block, edit, buffers);
    edits::put_edit(rt, answer);
    cases::put(rt, block.columns);
    if answer.is_ok() && place < kept.len() {
        kept[place] = edit.value;
    }
    compare::is_fresh(setting, *block, kept, buffers)
}

// All edits, each with record and buffers as the one before left them.
fn play(
    rt: &impl Print,
    setting: &Setting,
    opened: EditedBlock,
    edits: &Edits,
    values: &[i32; 1040],
    buffers: &mut Buffers,
) {
    let mut block = opened;
    let mut kept = *values;
    let mut right = true;
    for i in 0..100 {
        let edit = edit_at(edits, i);
        let place = edits.places[i];
        let turned = turn(rt, setting, &mut block, edit, place, buffers, &mut kept);
        right = right && turned;
    }
    settings::put_record(rt, block);
    cases::put_same(rt, right);
}

// The same list through one call, which is to leave what the edits left one by one.
fn play_list(
    rt: &impl Print,
    setting: &Setting,
    edits: &Edits,
    values: &[i32; 1040],
    left: &Buffers,
) {
    let (mut levels, mut coeff) = setting.begun(values);
    let mut inter = [7i32; 1040];
    let mut residual = [7i32; 1040];
    let mut buffers = Buffers {
        levels: &mut levels,
        coeff: &mut coeff,
        inter: &mut inter,
        residual: &mut residual,
    };
    let mut numbers = [77u8; 100];
    let mut named = [77u8; 100];
    let mut across = [77u8; 100];
    let mut limits = [77u8; 100];
    let given = Given {
        rows: &edits.rows,
        columns: &edits.columns,
        values: &edits.values,
        ways: &edits.ways,
    };
    let mut told = Told {
        numbers: &mut numbers,
        named: &mut named,
        across: &mut across,
        limits: &mut limits,
    };
    lists::call(rt, setting, &mut buffers, given, &mut told);
    cases::put_same(rt, buffers.same(left));
}

// A block that is opened on coefficients or on levels. Past its n² elements the mark 7 stands.
pub fn replay(rt: &impl Print, stdin: &mut impl Read, setting: &Setting) {
    let mut values = [7i32; 1040];
    let count = cases::next::<usize, _>(stdin);
    cases::read_first(stdin, count, &mut values);
    let edits = next_edits(stdin);
    let (mut levels, mut coeff) = setting.begun(&values);
    let mut inter = [7i32; 1040];
    let mut residual = [7i32; 1040];
    let mut buffers = Buffers {
        levels: &mut levels,
        coeff: &mut coeff,
        inter: &mut inter,
        residual: &mut residual,
    };
    let opened = settings::open(setting, &mut buffers);
    settings::put_answer(rt, opened);
    play(
        rt,
        setting,
        settings::block_of(opened),
        &edits,
        &values,
        &mut buffers,
    );
    play_list(rt, setting, &edits, &values, &buffers);
}
