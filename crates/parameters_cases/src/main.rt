// Replays module 1 from standard input. A case is a text, which is written as it is, and a byte that says which: 0 the range, 1 the offset of QP', 2 QP', 3 the numbers of
// scaling, 4 those of transform skip. Then come the size, eight bytes, QP or QP', four, and depth and flag, a byte each. The text goes on with the answer and the
// values. tests/parameters_cases.py writes cases and text.
#![tactic(auto)]

use parameters::{DequantParams, Qp, QpPrime};
use refusal::Precision;
use std::io::Read;

// The function that a case is of, by its number; the last one is any number from its own on.
#[derive(Clone, Copy)]
enum Function {
    Range,
    Offset,
    QpPrime,
    Dequant,
    TransformSkip,
}

impl From<u8> for Function {
    fn from(number: u8) -> Function {
        match number {
            0 => Function::Range,
            1 => Function::Offset,
            2 => Function::QpPrime,
            3 => Function::Dequant,
            _ => Function::TransformSkip,
        }
    }
}

fn put_params(rt: &impl Print, params: DequantParams) {
    cases::put_answer(rt, Ok(()));
    cases::put(rt, params.factor);
    cases::put(rt, params.add);
    cases::put(rt, params.shift);
    cases::put(rt, params.clip_min);
    cases::put(rt, params.clip_max);
}

fn dequant(rt: &impl Print, n: usize, qp: i32, precision: Precision) {
    match parameters::dequant_params(n, QpPrime(qp), precision) {
        Ok(params) => put_params(rt, params),
        Err(why) => cases::put_refusal(rt, why),
    }
}

fn skip(rt: &impl Print, n: usize, qp: i32, precision: Precision) {
    match parameters::transform_skip_params(n, QpPrime(qp), precision) {
        Ok(params) => {
            put_params(rt, params.dequant);
            cases::put(rt, params.tr_add);
            cases::put(rt, params.tr_shift);
        }
        Err(why) => cases::put_refusal(rt, why),
    }
}

// One case; answers whether there was one.
fn replay(rt: &impl Print, stdin: &mut impl Read) -> bool {
    if !cases::copy_text(rt, stdin) {
        return false;
    }
    let which = Function::from(cases::next::<u8, _>(stdin));
    let n = cases::next::<usize, _>(stdin);
    let qp = cases::next::<i32, _>(stdin);
    let precision = cases::next_precision(stdin);
    let bit_depth = precision.bit_depth;
    match which {
        Function::Range => cases::put_value(
            rt,
            parameters::max_log2_transform_dynamic_range(precision),
        ),
        Function::Offset => cases::put_value(rt, parameters::qp_bd_offset(bit_depth)),
        Function::QpPrime => cases::put_value(
            rt,
            parameters::qp_prime(Qp(qp), bit_depth).map(|qp| qp.0),
        ),
        Function::Dequant => dequant(rt, n, qp, precision),
        Function::TransformSkip => skip(rt, n, qp, precision),
    }
    cases::put_end(rt);
    true
}

fn main(rt: HostRuntime) {
    let mut stdin = rt.stdin();
    cases::replay_all(|| replay(&rt, &mut stdin));
}
