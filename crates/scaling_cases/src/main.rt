// Replays scaling and transform skip from standard input. A case is a text, which is written as it is, and a byte that says which: 0 m, 1 one level, else a block:
// 2 and 3 scaling without a list and with one, 4 and 5 transform skip, with 32-bit output, and 6 to 9 the same with 16-bit output. Then come size, index, QP' and level, of
// 8, 8, 4 and 4 bytes; depth, flag and DC, a byte each; the lengths of list, levels and output, two bytes each; list and levels. An output is lent with 7
// throughout. The text goes on with the answer, and the value with what was limited, or the count of limited coefficients and the output. tests/scaling_cases.py writes cases and text.
#![tactic(auto)]

use parameters::QpPrime;
use refusal::{Precision, Refusal};
use std::fmt::Display;
use std::io::Read;

// The function that a case is of, by its number; the last one is any number from its own on.
#[derive(Clone, Copy)]
enum Function {
    Factor,
    Level,
    Wide(Scaling),
    Narrow(Scaling),
}

// What becomes of a block.
#[derive(Clone, Copy)]
enum Scaling {
    Flat,
    Listed,
    SkipFlat,
    SkipListed,
}

impl From<u8> for Function {
    fn from(number: u8) -> Function {
        match number {
            0 => Function::Factor,
            1 => Function::Level,
            2 => Function::Wide(Scaling::Flat),
            3 => Function::Wide(Scaling::Listed),
            4 => Function::Wide(Scaling::SkipFlat),
            5 => Function::Wide(Scaling::SkipListed),
            6 => Function::Narrow(Scaling::Flat),
            7 => Function::Narrow(Scaling::Listed),
            8 => Function::Narrow(Scaling::SkipFlat),
            _ => Function::Narrow(Scaling::SkipListed),
        }
    }
}

#[derive(Clone, Copy)]
struct Case {
    n: usize,
    index: usize,
    qp: QpPrime,
    level: i32,
    precision: Precision,
    dc: u8,
}

fn next_case(stdin: &mut impl Read) -> Case {
    Case {
        n: cases::next(stdin),
        index: cases::next(stdin),
        qp: QpPrime(cases::next(stdin)),
        level: cases::next(stdin),
        precision: cases::next_precision(stdin),
        dc: cases::next(stdin),
    }
}

// With DC as m.
fn level(rt: &impl Print, case: Case) {
    match scaling::scale_level(case.level, case.dc, case.n, case.qp, case.precision) {
        Ok(scaled) => {
            cases::put_answer(rt, Ok(()));
            cases::put(rt, scaled.value);
            cases::put_flag(rt, scaled.level_limited);
            cases::put_flag(rt, scaled.result_limited);
        }
        Err(why) => cases::put_refusal(rt, why),
    }
}

// Kept: a match on each width's four names; a trait with two impls would hold the same two matches.
fn scale_wide(
    what: Scaling,
    case: Case,
    list: &[u8],
    levels: &[i32],
    out: &mut [i32],
) -> Result<u16, Refusal> {
    let n = case.n;
    let qp = case.qp;
    let precision = case.precision;
    let dc = case.dc;
    match what {
        Scaling::Flat => scaling_wide::dequantize_into_scalar_i32(levels, n, qp, precision, out),
        Scaling::Listed => scaling_wide::dequantize_scaled_into_scalar_i32(
            levels, n, qp, precision, list, dc, out,
        ),
        Scaling::SkipFlat => scaling_wide::dequantize_transform_skip_into_scalar_i32(
            levels, n, qp, precision, out,
        ),
        Scaling::SkipListed => scaling_wide::dequantize_transform_skip_scaled_into_scalar_i32(
            levels, n, qp, precision, list, dc, out,
        ),
    }
}

fn scale_narrow(
    what: Scaling,
    case: Case,
    list: &[u8],
    levels: &[i32],
    out: &mut [i16],
) -> Result<u16, Refusal> {
    let n = case.n;
    let qp = case.qp;
    let precision = case.precision;
    let dc = case.dc;
    match what {
        Scaling::Flat => scaling_narrow::dequantize_into_scalar_i16(levels, n, qp, precision, out),
        Scaling::Listed => scaling_narrow::dequantize_scaled_into_scalar_i16(
            levels, n, qp, precision, list, dc, out,
        ),
        Scaling::SkipFlat => scaling_narrow::dequantize_transform_skip_into_scalar_i16(
            levels, n, qp, precision, out,
        ),
        Scaling::SkipListed => scaling_narrow::dequantize_transform_skip_scaled_into_scalar_i16(
            levels, n, qp, precision, list, dc, out,
        ),
    }
}

// The answer of a call, how many coefficients were limited, and the output.
fn show<T, F>(rt: &impl Print, out: &mut [T], call: F)
where
    T: Display + Copy,
    F: FnOnce(&mut [T]) -> Result<u16, Refusal>,
    requires { F.IsAlwaysCallable call }
{
    cases::put_count(rt, call(out));
    cases::put_all(rt, out);
}

// One case; answers whether there was one.
fn replay(rt: &impl Print, stdin: &mut impl Read) -> bool {
    if !cases::copy_text(rt, stdin) {
        return false;
    }
    let function = Function::from(cases::next::<u8, _>(stdin));
    let case = next_case(stdin);
    let mut list = [0u8; 65];
    let mut levels = [0i32; 1040];
    let entries = cases::next_short_length(stdin, 65);
    let count = cases::next_short_length(stdin, 1040);
    let len = cases::next_short_length(stdin, 1040);
    cases::read_bytes(stdin, entries, &mut list);
    cases::read_first(stdin, count, &mut levels);
    let list = &list[..entries];
    let levels = &levels[..count];
    match function {
        Function::Factor => {
            cases::put_value(
                rt,
                scaling::scaling_coeff(list, case.dc, case.n, case.index),
            );
        }
        Function::Level => level(rt, case),
        Function::Wide(what) => {
            let mut out = [7i32; 1040];
            show(
                rt,
                &mut out[..len],
                |out| scale_wide(what, case, list, levels, out),
            );
        }
        Function::Narrow(what) => {
            let mut out = [7i16; 1040];
            show(
                rt,
                &mut out[..len],
                |out| scale_narrow(what, case, list, levels, out),
            );
        }
    }
    cases::put_end(rt);
    true
}

fn main(rt: HostRuntime) {
    let mut stdin = rt.stdin();
    cases::replay_all(|| replay(&rt, &mut stdin));
}
