// Replays transforms from standard input. A case is a text, which is written as it is, and a byte that says which: 0 and 1 the DCT, plain and with extended precision,
// 2 and 3 the DST, 4 and 5 both with 16-bit output. Then come size and column count, eight bytes each, and depth, a byte; how many coefficients there are, eight bytes, and
// the coefficients; and the output's length. An output is lent with 7 throughout, so that what a call leaves alone is seen. The text goes on with the answer and
// the output. tests/transform_cases.py writes cases and text.
#![tactic(auto)]

use cases::Number;
use refusal::Refusal;
use std::fmt::Display;
use std::io::Read;

// The function that a case is of, by its number; the last one is any number from its own on.
#[derive(Clone, Copy)]
enum Function {
    Wide(Wide),
    Narrow(Narrow),
}

#[derive(Clone, Copy)]
enum Wide {
    Dct,
    DctExtended,
    Dst,
    DstExtended,
}

#[derive(Clone, Copy)]
enum Narrow {
    Dct,
    Dst,
}

impl From<u8> for Function {
    fn from(number: u8) -> Function {
        match number {
            0 => Function::Wide(Wide::Dct),
            1 => Function::Wide(Wide::DctExtended),
            2 => Function::Wide(Wide::Dst),
            3 => Function::Wide(Wide::DstExtended),
            4 => Function::Narrow(Narrow::Dct),
            _ => Function::Narrow(Narrow::Dst),
        }
    }
}

#[derive(Clone, Copy)]
struct Case {
    n: usize,
    nx: usize,
    bit_depth: u8,
}

// Functions over values of one width.
trait Transform<V> {
    fn call(self, case: Case, coeff: &[V], out: &mut [V]) -> Result<(), Refusal>;
}

impl Transform<i32> for Wide {
    fn call(self, case: Case, coeff: &[i32], out: &mut [i32]) -> Result<(), Refusal> {
        let n = case.n;
        let nx = case.nx;
        let depth = case.bit_depth;
        match self {
            Wide::Dct => transform::inv_transform_into_scalar(coeff, n, depth, nx, out),
            Wide::DctExtended => transform::inv_transform_into_scalar_extended(
                coeff, n, depth, nx, out,
            ),
            Wide::Dst => transform::inv_transform_dst_into_scalar(coeff, depth, out),
            Wide::DstExtended => transform::inv_transform_dst_into_scalar_extended(
                coeff, depth, out,
            ),
        }
    }
}

impl Transform<i16> for Narrow {
    fn call(self, case: Case, coeff: &[i16], out: &mut [i16]) -> Result<(), Refusal> {
        let n = case.n;
        let nx = case.nx;
        let depth = case.bit_depth;
        match self {
            Narrow::Dct => transform::inv_transform_into_scalar16(coeff, n, depth, nx, out),
            Narrow::Dst => transform::inv_transform_dst_into_scalar16(coeff, depth, out),
        }
    }
}

// Coefficients and output are the first places of the buffers.
fn run<V: Number + Display, F: Transform<V>>(
    rt: &impl Print,
    stdin: &mut impl Read,
    what: F,
    case: Case,
    coeff: &mut [V],
    out: &mut [V],
) {
    let count = cases::next_length(stdin, coeff.len());
    cases::read_all(stdin, &mut coeff[..count]);
    let len = cases::next_length(stdin, out.len());
    cases::put_answer(rt, what.call(case, &coeff[..count], &mut out[..len]));
    cases::put_all(rt, &out[..len]);
}

// One case; answers whether there was one.
fn replay(rt: &impl Print, stdin: &mut impl Read) -> bool {
    if !cases::copy_text(rt, stdin) {
        return false;
    }
    let function = Function::from(cases::next::<u8, _>(stdin));
    let case = Case {
        n: cases::next(stdin),
        nx: cases::next(stdin),
        bit_depth: cases::next(stdin),
    };
    match function {
        Function::Wide(what) => {
            let mut coeff = [0i32; 1024];
            let mut out = [7i32; 1040];
            run(rt, stdin, what, case, &mut coeff, &mut out);
        }
        Function::Narrow(what) => {
            let mut coeff = [0i16; 1024];
            let mut out = [7i16; 1040];
            run(rt, stdin, what, case, &mut coeff, &mut out);
        }
    }
    cases::put_end(rt);
    true
}

fn main(rt: HostRuntime) {
    let mut stdin = rt.stdin();
    cases::replay_all(|| replay(&rt, &mut stdin));
}
