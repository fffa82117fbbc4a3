// Replays searches for edits from standard input. A case is a text, which is written as it is; a byte for the function, 0 of coefficients, 1 of levels without a list
// and 2 with one; the kind, 0 or 1 for DCT or DST; size, eight bytes, QP', four, depth, flag and DC, a byte each; then list, coefficients or levels, target and
// flags, each after its length of eight bytes, and the lengths of both outputs. An output is lent with 7 throughout. The text goes on with the answer and both
// outputs. tests/edit_search_cases.py, which asks every value of the range, writes cases and text.
#![tactic(auto)]

use parameters::QpPrime;
use refusal::{Precision, Refusal};
use scaling_values::ScalingList;
use std::io::Read;
use transform_1d::Kind;

// The function that a case is of, by its number; the last one is any number from its own on.
#[derive(Clone, Copy)]
enum Function {
    Coefficients,
    Levels,
    ListedLevels,
}

impl From<u8> for Function {
    fn from(number: u8) -> Function {
        match number {
            0 => Function::Coefficients,
            1 => Function::Levels,
            _ => Function::ListedLevels,
        }
    }
}

#[derive(Clone, Copy)]
struct Case {
    function: Function,
    kind: Kind,
    n: usize,
    qp: QpPrime,
    precision: Precision,
    dc: u8,
}

fn next_case(stdin: &mut impl Read, function: Function) -> Case {
    Case {
        function,
        kind: cases::next_kind(stdin),
        n: cases::next(stdin),
        qp: QpPrime(cases::next(stdin)),
        precision: cases::next_precision(stdin),
        dc: cases::next(stdin),
    }
}

// What levels are scaled by.
fn list_of(case: Case, entries: &[u8]) -> ScalingList {
    match case.function {
        Function::Coefficients | Function::Levels => ScalingList::Flat,
        Function::ListedLevels => ScalingList::Listed(entries, case.dc),
    }
}

fn call(
    case: Case,
    list: ScalingList,
    given: &[i32],
    target: &[i32],
    wanted: &[u8],
    least: &mut [i32],
    most: &mut [i32],
) -> Result<(), Refusal> {
    let kind = case.kind;
    let n = case.n;
    let precision = case.precision;
    match case.function {
        Function::Coefficients => edit_search::find_edits(
            kind, n, precision, given, target, wanted, least, most,
        ),
        Function::Levels | Function::ListedLevels => level_edits::find_level_edits(
            kind, n, case.qp, precision, list, given, target, wanted, least, most,
        ),
    }
}

// The buffers of a case, and its answer.
fn replay_case(rt: &impl Print, stdin: &mut impl Read, case: Case) {
    let mut list = [0u8; 64];
    let mut given = [0i32; 1024];
    let mut target = [0i32; 1024];
    let mut wanted = [0u8; 1024];
    let mut least = [7i32; 1040];
    let mut most = [7i32; 1040];
    let entries = cases::next_length(stdin, 64);
    cases::read_bytes(stdin, entries, &mut list);
    let count = cases::next_length(stdin, 1024);
    cases::read_first(stdin, count, &mut given);
    let targets = cases::next_length(stdin, 1024);
    cases::read_first(stdin, targets, &mut target);
    let flags = cases::next_length(stdin, 1024);
    cases::read_bytes(stdin, flags, &mut wanted);
    let low = cases::next_length(stdin, 1040);
    let high = cases::next_length(stdin, 1040);
    let least = &mut least[0..low];
    let most = &mut most[0..high];
    let answer = call(
        case,
        list_of(case, &list[0..entries]),
        &given[0..count],
        &target[0..targets],
        &wanted[0..flags],
        least,
        most,
    );
    cases::put_answer(rt, answer);
    cases::put_all(rt, least);
    cases::put_all(rt, most);
}

// One case; answers whether there was one.
fn replay(rt: &impl Print, stdin: &mut impl Read) -> bool {
    if !cases::copy_text(rt, stdin) {
        return false;
    }
    let function = Function::from(cases::next::<u8, _>(stdin));
    let case = next_case(stdin, function);
    replay_case(rt, stdin, case);
    cases::put_end(rt);
    true
}

fn main(rt: HostRuntime) {
    let mut stdin = rt.stdin();
    cases::replay_all(|| replay(&rt, &mut stdin));
}
