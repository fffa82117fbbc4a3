// Replays searches for levels from standard input. A case is a text, which is written as it is, and a byte that says whether there is a list; size, eight bytes, QP', four,
// depth, flag and DC, a byte each; then list, coefficients and output, the first two with what they hold, each after its length of eight bytes. An output is lent
// with 7 throughout. The text goes on with the answer and the output. tests/level_search_cases.py, which asks every level of the range, writes cases and text.
#![tactic(auto)]

use parameters::QpPrime;
use refusal::{Precision, Refusal};
use scaling_values::ScalingList;
use std::io::Read;

#[derive(Clone, Copy)]
struct Case {
    n: usize,
    qp: QpPrime,
    precision: Precision,
    // DC of the list, where there is one
    dc: Option<u8>,
}

fn next_case(stdin: &mut impl Read) -> Case {
    let listed = cases::next::<u8, _>(stdin) != 0;
    Case {
        n: cases::next(stdin),
        qp: QpPrime(cases::next(stdin)),
        precision: cases::next_precision(stdin),
        dc: listed.then_some(cases::next(stdin)),
    }
}

// Kept: lent buffers, which a struct would only carry to the call; so below.
fn call(case: Case, entries: &[u8], coeff: &[i32], levels: &mut [i32]) -> Result<(), Refusal> {
    let list = match case.dc {
        Some(dc) => ScalingList::Listed(entries, dc),
        None => ScalingList::Flat,
    };
    level_search::find_levels(coeff, case.n, case.qp, case.precision, list, levels)
}

fn show(rt: &impl Print, case: Case, entries: &[u8], coeff: &[i32], levels: &mut [i32]) {
    cases::put_answer(rt, call(case, entries, coeff, levels));
    cases::put_all(rt, levels);
}

// One case; answers whether there was one.
fn replay(rt: &impl Print, stdin: &mut impl Read) -> bool {
    if !cases::copy_text(rt, stdin) {
        return false;
    }
    let case = next_case(stdin);
    let mut list = [0u8; 64];
    let mut coeff = [0i32; 1024];
    let mut levels = [7i32; 1040];
    let entries = cases::next_length(stdin, 64);
    cases::read_bytes(stdin, entries, &mut list);
    let count = cases::next_length(stdin, 1024);
    cases::read_first(stdin, count, &mut coeff);
    let len = cases::next_length(stdin, 1040);
    show(
        rt,
        case,
        &list[0..entries],
        &coeff[0..count],
        &mut levels[0..len],
    );
    cases::put_end(rt);
    true
}

fn main(rt: HostRuntime) {
    let mut stdin = rt.stdin();
    cases::replay_all(|| replay(&rt, &mut stdin));
}
