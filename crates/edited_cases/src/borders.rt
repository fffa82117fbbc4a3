// Calls on lent buffers of any length. A case goes on with the lengths of levels, coefficients, intermediate and residual, eight bytes each, and what they hold; an
// edit's with the column count of its record, whether it is of a level, row and column, and the value; a list's as `lists` says. The text goes on with the answer,
// the record handed back, zeros where an opening was refused, and the four buffers.
use crate::buffers::Buffers;
use crate::edits::Edit;
use crate::settings::Setting;
use crate::{edits, lists, settings};
use std::io::Read;

#[derive(Clone, Copy)]
pub enum Call {
    Opening,
    Edit,
    List,
}

fn opening(rt: &impl Print, setting: &Setting, buffers: &mut Buffers) {
    let opened = settings::open(setting, buffers);
    settings::put_opened(rt, opened);
}

fn edit(rt: &impl Print, stdin: &mut impl Read, setting: &Setting, buffers: &mut Buffers) {
    let mut block = settings::record(setting, cases::next::<usize, _>(stdin));
    let level = cases::next::<u8, _>(stdin) != 0;
    let row = cases::next::<usize, _>(stdin);
    let column = cases::next::<usize, _>(stdin);
    let value = cases::next::<i32, _>(stdin);
    let edit = Edit {
        row,
        column,
        value,
        level,
    };
    let answer = edits::make(&mut block, edit, buffers);
    edits::put_edit(rt, answer);
    settings::put_record(rt, block);
}

// With buffers as long as the case says.
pub fn replay(rt: &impl Print, stdin: &mut impl Read, call: Call, setting: &Setting) {
    let mut levels = [0i32; 32];
    let mut coeff = [0i32; 32];
    let mut inter = [0i32; 32];
    let mut residual = [0i32; 32];
    let a = cases::next_length(stdin, 32);
    let b = cases::next_length(stdin, 32);
    let c = cases::next_length(stdin, 32);
    let d = cases::next_length(stdin, 32);
    let mut buffers = Buffers {
        levels: &mut levels[..a],
        coeff: &mut coeff[..b],
        inter: &mut inter[..c],
        residual: &mut residual[..d],
    };
    buffers.read(stdin);
    match call {
        Call::Opening => opening(rt, setting, &mut buffers),
        Call::Edit => edit(rt, stdin, setting, &mut buffers),
        Call::List => lists::list(rt, stdin, setting, &mut buffers),
    }
    buffers.put(rt);
}
