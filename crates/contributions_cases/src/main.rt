// Replays contributions from standard input. A case is a text, which is written as it is; the kind, 0 or 1 for DCT or DST, the size, and the row and the column of the
// sample, eight bytes each; then coefficients after their length of eight bytes, and the length of the output, which is lent with 7 throughout. The text goes on with the
// answer and the output. tests/contributions_cases.py writes cases and text.
#![tactic(auto)]

use std::io::Read;
use transform_1d::Kind;

#[derive(Clone, Copy)]
struct Case {
    kind: Kind,
    n: usize,
    row: usize,
    column: usize,
}

fn next_case(stdin: &mut impl Read) -> Case {
    Case {
        kind: cases::next_kind(stdin),
        n: cases::next(stdin),
        row: cases::next(stdin),
        column: cases::next(stdin),
    }
}

fn show(rt: &impl Print, case: Case, coeff: &[i32], out: &mut [i64]) {
    cases::put_answer(
        rt,
        contributions::contributions(case.kind, case.n, case.row, case.column, coeff, out),
    );
    cases::put_all(rt, out);
}

// The buffers of a case, and its answer.
fn replay_case(rt: &impl Print, stdin: &mut impl Read, case: Case) {
    let mut coeff = [0i32; 1024];
    let mut out = [7i64; 1040];
    let count = cases::next_length(stdin, 1024);
    cases::read_first(stdin, count, &mut coeff);
    let room = cases::next_length(stdin, 1040);
    show(rt, case, &coeff[0..count], &mut out[0..room]);
}

// One case; answers whether there was one.
fn replay(rt: &impl Print, stdin: &mut impl Read) -> bool {
    if !cases::copy_text(rt, stdin) {
        return false;
    }
    let case = next_case(stdin);
    replay_case(rt, stdin, case);
    cases::put_end(rt);
    true
}

fn main(rt: HostRuntime) {
    let mut stdin = rt.stdin();
    cases::replay_all(|| replay(&rt, &mut stdin));
}
