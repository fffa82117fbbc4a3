// Replays recorded answers of the ported Rust, through the functions that C gets. A case is a text, which is written as it is: the function and what it is called with.
// Then come the function's number, depth, flag and DC or m, a byte each; size, and column count or index, two bytes each; QP or
// QP', and a level, four bytes each; the lengths of list, input and output, two bytes each, as far as the function has them; the list, the input, and the output that the Rust left. The text goes on with number, row and column, of a block that is
// scaled the count of limited coefficients, of a level whether it and its result were limited, by a plain writing of the rule, and whether every value is the Rust's.
// `harness record` writes cases and text.
#![tactic(auto)]

use c_api::{Answered, CountAnswered};
use cases::Number;
use function::Function;
use std::fmt::Display;
use std::io::Read;

mod function; // the functions by their numbers
mod inverted;
mod scaled;

// `byte` is DC or m, `qp` is QP or QP', `count` the column count or an index.
// Kept: depth and flag stand apart, as the functions for C take them.
#[derive(Clone, Copy)]
struct Case {
    bit_depth: u8,
    extended_precision: bool,
    byte: u8,
    n: usize,
    count: usize,
    qp: i32,
    level: i32,
}

// What a function answered, as far as the text has it.
trait Told: Drop {
    fn put(&self, rt: &impl Print);
}

impl Told for Answered {
    fn put(&self, rt: &impl Print) {
        put_answer(rt, self.number, self.row, self.column);
    }
}

impl Told for CountAnswered {
    fn put(&self, rt: &impl Print) {
        put_answer(rt, self.number, self.row, self.column);
        cases::put(rt, self.limited);
    }
}

fn put_answer(rt: &impl Print, number: u32, row: u8, column: u8) {
    cases::put(rt, number);
    cases::put(rt, row);
    cases::put(rt, column);
}

// Whether a value is the next recorded one.
fn put_next(rt: &impl Print, stdin: &mut impl Read, z: i64) {
    let recorded: i32 = cases::next(stdin);
    cases::put_same(rt, recorded as i64 == z);
}

fn run_range(rt: &impl Print, stdin: &mut impl Read, case: Case) {
    let r = c_api::residual_max_log2_transform_dynamic_range(
        case.bit_depth,
        case.extended_precision,
    );
    put_answer(rt, r.number, r.row, r.column);
    put_next(rt, stdin, r.value as i64);
}

fn run_dequant(rt: &impl Print, stdin: &mut impl Read, case: Case) {
    let r = c_api::residual_dequant_params(
        case.n,
        case.qp,
        case.bit_depth,
        case.extended_precision,
    );
    put_answer(rt, r.number, r.row, r.column);
    for z in [r.factor, r.add, r.shift as i64, r.clip_min, r.clip_max] {
        put_next(rt, stdin, z);
    }
}

fn run_transform_skip(rt: &impl Print, stdin: &mut impl Read, case: Case) {
    let r = c_api::residual_transform_skip_params(
        case.n,
        case.qp,
        case.bit_depth,
        case.extended_precision,
    );
    put_answer(rt, r.number, r.row, r.column);
    for z in [
        r.factor,
        r.add,
        r.shift as i64,
        r.clip_min,
        r.clip_max,
        r.tr_add as i64,
        r.tr_shift as i64,
    ] {
        put_next(rt, stdin, z);
    }
}

fn run_factor(rt: &impl Print, stdin: &mut impl Read, case: Case) {
    let mut list = [0u8; 64];
    let entries = cases::next_short_length(stdin, 64);
    cases::read_bytes(stdin, entries, &mut list);
    let r = c_api::residual_scaling_coeff(&list[..entries], case.byte, case.n, case.count);
    put_answer(rt, r.number, r.row, r.column);
    put_next(rt, stdin, r.value as i64);
}

fn run_level(rt: &impl Print, stdin: &mut impl Read, case: Case) {
    let r = c_api::residual_scale_level(
        case.level,
        case.byte,
        case.n,
        case.qp,
        case.bit_depth,
        case.extended_precision,
    );
    put_answer(rt, r.number, r.row, r.column);
    cases::put_flag(rt, r.level_limited);
    cases::put_flag(rt, r.result_limited);
    put_next(rt, stdin, r.value as i64);
}

// A call on a block with its list, which is empty where the function takes none. The output has the mark 77 in every place, as the recorder lent it to the Rust.
fn run_listed<O, A, F>(rt: &impl Print, stdin: &mut impl Read, out: &mut [O], call: F)
where
    O: Number + Display,
    A: Told,
    F: FnOnce(&[u8], &[i32], &mut [O]) -> A,
    requires { F.IsAlwaysCallable call }
{
    let mut list = [0u8; 64];
    let mut input = [0i32; 1040];
    let entries = cases::next_short_length(stdin, 64);
    let count = cases::next_short_length(stdin, 1040);
    let len = cases::next_short_length(stdin, out.len());
    cases::read_bytes(stdin, entries, &mut list);
    cases::read_first(stdin, count, &mut input);
    let answer = call(&list[..entries], &input[..count], &mut out[..len]);
    answer.put(rt);
    cases::put_same(rt, cases::are_next(stdin, &out[..len]));
}

// A transform 16 bits wide, whose cases have no list.
// Kept: in a case with a list its length stands before the other two and its bytes behind them, so that one function for both would ask twice which it is.
fn run_short<F>(rt: &impl Print, stdin: &mut impl Read, call: F)
where
    F: FnOnce(&[i16], &mut [i16]) -> Answered,
    requires { F.IsAlwaysCallable call }
{
    let mut input = [0i16; 1040];
    let mut out = [77i16; 1040];
    let count = cases::next_short_length(stdin, 1040);
    let len = cases::next_short_length(stdin, 1040);
    cases::read_first(stdin, count, &mut input);
    let answer = call(&input[..count], &mut out[..len]);
    answer.put(rt);
    cases::put_same(rt, cases::are_next(stdin, &out[..len]));
}

fn run(rt: &impl Print, stdin: &mut impl Read, function: Function, case: Case) {
    match function {
        Function::Range => run_range(rt, stdin, case),
        Function::Dequant => run_dequant(rt, stdin, case),
        Function::TransformSkip => run_transform_skip(rt, stdin, case),
        Function::Factor => run_factor(rt, stdin, case),
        Function::Level => run_level(rt, stdin, case),
        Function::Scale32(what) => scaled::run_32(rt, stdin, case, what),
        Function::Scale16(what) => scaled::run_16(rt, stdin, case, what),
        Function::Invert32(what) => inverted::run_32(rt, stdin, case, what),
        Function::Invert16(what) => inverted::run_16(rt, stdin, case, what),
    }
}

// One case; answers whether there was one.
fn replay(rt: &impl Print, stdin: &mut impl Read) -> bool {
    if !cases::copy_text(rt, stdin) {
        return false;
    }
    let function = Function::from(cases::next::<u8, _>(stdin));
    let case = Case {
        bit_depth: cases::next(stdin),
        extended_precision: cases::next::<u8, _>(stdin) != 0,
        byte: cases::next(stdin),
        n: cases::next::<u16, _>(stdin) as usize,
        count: cases::next::<u16, _>(stdin) as usize,
        qp: cases::next(stdin),
        level: cases::next(stdin),
    };
    run(rt, stdin, function, case);
    cases::put_end(rt);
    true
}

fn main(rt: HostRuntime) {
    let mut stdin = rt.stdin();
    cases::replay_all(|| replay(&rt, &mut stdin));
}
