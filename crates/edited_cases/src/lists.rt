// An opening and a list of edits in one call. A case goes on with eight rows, columns, values and ways, where a row or column is a byte and 255 the largest number there
// is; then the lengths of the slices that are lent: rows, columns, values and ways, and numbers, rows, columns and limits of the answers, which hold 77. The text goes
// on with the opening's answer, the record handed back and how many edits were given, zeros where it was refused, and the answers' slices.
use crate::buffers::Buffers;
use crate::settings::{Setting, Way};
use crate::{edits, settings};
use edited_list::Listed;
use refusal::Refusal;
use std::io::Read;

// A list of edits, as the call gets it.
// Kept: C lends edits and answers as slices side by side; so for Told below.
#[derive(Clone, Copy)]
pub struct Given<'a> {
    pub rows: &'a [usize],
    pub columns: &'a [usize],
    pub values: &'a [i32],
    pub ways: &'a [bool],
}

// Its answers.
#[derive(Drop)]
pub struct Told<'a> {
    pub numbers: &'a mut [u8],
    pub named: &'a mut [u8],
    pub across: &'a mut [u8],
    pub limits: &'a mut [u8],
}

impl<'a> Told<'a> {
    fn put(&self, rt: &impl Print) {
        cases::put_all(rt, self.numbers);
        cases::put_all(rt, self.named);
        cases::put_all(rt, self.across);
        cases::put_all(rt, self.limits);
    }
}

fn put_listed(rt: &impl Print, listed: Result<Listed, Refusal>) {
    settings::put_opened(rt, listed.map(|told| told.opened));
    cases::put(rt, listed.map_or(0, |told| told.edits));
}

// Kept: setting, buffers, edits and answers are four records already, each of use elsewhere; a fifth around them would serve these two calls and `call` below alone.
fn on_coefficients(
    setting: &Setting,
    buffers: &mut Buffers,
    given: Given,
    told: &mut Told,
) -> Result<Listed, Refusal> {
    edited_list::open_and_edit(
        setting.kind,
        setting.n,
        setting.precision,
        buffers.levels,
        buffers.coeff,
        buffers.inter,
        buffers.residual,
        given.rows,
        given.columns,
        given.values,
        given.ways,
        told.numbers,
        told.named,
        told.across,
        told.limits,
    )
}

fn on_levels(
    setting: &Setting,
    buffers: &mut Buffers,
    given: Given,
    told: &mut Told,
) -> Result<Listed, Refusal> {
    edited_list::open_levels_and_edit(
        setting.kind,
        setting.n,
        setting.precision,
        setting.qp_prime,
        setting.whole_list(),
        buffers.levels,
        buffers.coeff,
        buffers.inter,
        buffers.residual,
        given.rows,
        given.columns,
        given.values,
        given.ways,
        told.numbers,
        told.named,
        told.across,
        told.limits,
    )
}

// One call, with its answers.
pub fn call(
    rt: &impl Print,
    setting: &Setting,
    buffers: &mut Buffers,
    given: Given,
    told: &mut Told,
) {
    let listed = match setting.way {
        Way::Coefficients => on_coefficients(setting, buffers, given, told),
        Way::Levels | Way::ListedLevels | Way::Other => on_levels(setting, buffers, given, told),
    };
    put_listed(rt, listed);
    told.put(rt);
}

// With answers as long as the case says.
fn answered(
    rt: &impl Print,
    stdin: &mut impl Read,
    setting: &Setting,
    buffers: &mut Buffers,
    given: Given,
) {
    let mut numbers = [77u8; 8];
    let mut named = [77u8; 8];
    let mut across = [77u8; 8];
    let mut limits = [77u8; 8];
    let a = cases::next_length(stdin, 8);
    let b = cases::next_length(stdin, 8);
    let c = cases::next_length(stdin, 8);
    let d = cases::next_length(stdin, 8);
    let mut told = Told {
        numbers: &mut numbers[..a],
        named: &mut named[..b],
        across: &mut across[..c],
        limits: &mut limits[..d],
    };
    call(rt, setting, buffers, given, &mut told);
}

pub fn list(rt: &impl Print, stdin: &mut impl Read, setting: &Setting, buffers: &mut Buffers) {
    let mut rows = [0usize; 8];
    let mut columns = [0usize; 8];
    let mut values = [0i32; 8];
    let mut ways = [false; 8];
    cases::read_named(stdin, &mut rows);
    cases::read_named(stdin, &mut columns);
    cases::read_all(stdin, &mut values);
    edits::read_flags(stdin, &mut ways);
    let a = cases::next_length(stdin, 8);
    let b = cases::next_length(stdin, 8);
    let c = cases::next_length(stdin, 8);
    let d = cases::next_length(stdin, 8);
    let given = Given {
        rows: &rows[..a],
        columns: &columns[..b],
        values: &values[..c],
        ways: &ways[..d],
    };
    answered(rt, stdin, setting, buffers, given);
}
