// Replays the block tools from standard input. A case is a text, which is written as it is, and a byte that says which: 0 and 1 transform skip without a list and with
// one, 2 the bypass. Then come the size, eight bytes, QP', four, and a byte each for depth, flag, DC, rotation and way of accumulation; the list after its length; the number
// of levels, and how they are made: 0 as they follow, else by `fill`, small or over 16 bits; and the output's length, all lengths of eight bytes. An output is lent with
// 999 throughout. The text goes on with the answer, for transform skip the count of limited coefficients, two running sums over the output, and the output where it is short. tests/block_tools_cases.py writes cases and text.
#![tactic(auto)]

use block_tools::Accumulate;
use parameters::QpPrime;
use refusal::{Precision, Refusal};
use scaling_values::ScalingList;
use std::io::Read;

// The function that a case is of, by its number; the last one is any number from its own on.
#[derive(Clone, Copy)]
enum Function {
    Skip,
    SkipListed,
    Bypass,
}

// How the levels of a case are made, by its number; a number past these three makes small ones.
#[derive(Clone, Copy)]
enum Levels {
    Given,
    Small,
    Wide,
}

impl From<u8> for Function {
    fn from(number: u8) -> Function {
        match number {
            0 => Function::Skip,
            1 => Function::SkipListed,
            _ => Function::Bypass,
        }
    }
}

impl From<u8> for Levels {
    fn from(number: u8) -> Levels {
        match number {
            0 => Levels::Given,
            2 => Levels::Wide,
            _ => Levels::Small,
        }
    }
}

#[derive(Clone, Copy)]
struct Case {
    function: Function,
    n: usize,
    qp: QpPrime,
    precision: Precision,
    dc: u8,
    rotate: bool,
    accumulate: Accumulate,
}

// Kept: a From<u8> can only stand where Accumulate is declared, and these numbers are this file's alone.
fn way_of(number: u8) -> Accumulate {
    match number {
        0 => Accumulate::Off,
        1 => Accumulate::AlongRows,
        _ => Accumulate::DownColumns,
    }
}

fn next_case(stdin: &mut impl Read) -> Case {
    Case {
        function: Function::from(cases::next::<u8, _>(stdin)),
        n: cases::next(stdin),
        qp: QpPrime(cases::next(stdin)),
        precision: cases::next_precision(stdin),
        dc: cases::next(stdin),
        rotate: cases::next::<u8, _>(stdin) != 0,
        accumulate: way_of(cases::next(stdin)),
    }
}

// The sum of the elements modulo 2^32, and the sum of the sums on the way, which tells places apart.
fn put_sums(rt: &impl Print, out: &[i32]) {
    let mut first: u32 = 0;
    let mut second: u32 = 0;
    for z in out {
        first = first.wrapping_add(z.cast_unsigned());
        second = second.wrapping_add(first);
    }
    cases::put(rt, first);
    cases::put(rt, second);
}

// Small enough for scaling to tell values apart.
fn small(sample: u16) -> i32 {
    (sample % 601) as i32 - 300
}

// Over the whole 16 bits.
fn wide(sample: u16) -> i32 {
    sample as i32 - 32768
}

fn fill<LevelOf: Fn(u16) -> i32>(levels: &mut [i32], level_of: LevelOf)
    requires { LevelOf.IsAlwaysCallable level_of }
{
    let mut sample: u16 = 0;
    for level in levels.iter_mut() {
        *level = level_of(sample);
        sample = sample.wrapping_add(7919);
    }
}

// Kept: lent buffers, which a struct would only carry to the call; so below.
fn skip(case: Case, list: ScalingList, levels: &[i32], out: &mut [i32]) -> Result<u16, Refusal> {
    block_tools::transform_skip_residual(
        levels,
        case.n,
        case.qp,
        case.precision,
        list,
        case.rotate,
        case.accumulate,
        out,
    )
}

fn bypass(case: Case, levels: &[i32], out: &mut [i32]) -> Result<(), Refusal> {
    block_tools::bypass_residual(
        levels,
        case.n,
        case.precision,
        case.rotate,
        case.accumulate,
        out,
    )
}

fn call(rt: &impl Print, case: Case, entries: &[u8], levels: &[i32], out: &mut [i32]) {
    match case.function {
        Function::Skip => cases::put_count(rt, skip(case, ScalingList::Flat, levels, out)),
        Function::SkipListed => {
            let list = ScalingList::Listed(entries, case.dc);
            cases::put_count(rt, skip(case, list, levels, out));
        }
        Function::Bypass => cases::put_answer(rt, bypass(case, levels, out)),
    }
}

fn show(rt: &impl Print, case: Case, entries: &[u8], levels: &[i32], out: &mut [i32]) {
    call(rt, case, entries, levels, out);
    put_sums(rt, out);
    if out.len() < 100 {
        cases::put_all(rt, out);
    }
}

fn make(stdin: &mut impl Read, how: Levels, count: usize, levels: &mut [i32]) {
    match how {
        Levels::Given => cases::read_first(stdin, count, levels),
        Levels::Small => fill(levels, small),
        Levels::Wide => fill(levels, wide),
    }
}

// One case; answers whether there was one.
fn replay(rt: &impl Print, stdin: &mut impl Read) -> bool {
    if !cases::copy_text(rt, stdin) {
        return false;
    }
    let case = next_case(stdin);
    let mut list = [0u8; 64];
    let mut levels = [0i32; 1024];
    let mut out = [999i32; 1028];
    let entries = cases::next_length(stdin, 64);
    cases::read_bytes(stdin, entries, &mut list);
    let count = cases::next_length(stdin, 1024);
    let how = Levels::from(cases::next::<u8, _>(stdin));
    make(stdin, how, count, &mut levels);
    let len = cases::next_length(stdin, 1028);
    show(
        rt,
        case,
        &list[0..entries],
        &levels[0..count],
        &mut out[0..len],
    );
    cases::put_end(rt);
    true
}

fn main(rt: HostRuntime) {
    let mut stdin = rt.stdin();
    cases::replay_all(|| replay(&rt, &mut stdin));
}
