// Replays rebuilt blocks and checksums from standard input. A case is a text, which is written as it is, and a byte that says which: 0 a block, 1 a checksum. Then come the
// size, eight bytes, depth, a byte, and width, height, stride, column and row, eight bytes each; residual and prediction, each after its length of eight bytes. A plane
// comes as its length, its first sample and the step from sample to sample, two bytes each, modulo 2^16, and samples that stand in its first places, after their number.
// The text goes on with the answer, and the plane afterwards or the checksum. tests/picture_cases.py writes cases and text.
#![tactic(auto)]

use planes::Extent;
use std::io::Read;

// The function that a case is of, by its number; the last one is any number from its own on.
#[derive(Clone, Copy)]
enum Function {
    Rebuild,
    Checksum,
}

impl From<u8> for Function {
    fn from(number: u8) -> Function {
        match number {
            0 => Function::Rebuild,
            _ => Function::Checksum,
        }
    }
}

#[derive(Clone, Copy)]
struct Case {
    function: Function,
    n: usize,
    bit_depth: u8,
    extent: Extent,
    x: usize,
    y: usize,
}

fn next_extent(stdin: &mut impl Read) -> Extent {
    Extent {
        width: cases::next(stdin),
        height: cases::next(stdin),
        stride: cases::next(stdin),
    }
}

fn next_case(stdin: &mut impl Read, function: Function) -> Case {
    Case {
        function,
        n: cases::next(stdin),
        bit_depth: cases::next(stdin),
        extent: next_extent(stdin),
        x: cases::next(stdin),
        y: cases::next(stdin),
    }
}

fn fill(first: u16, step: u16, plane: &mut [u16]) {
    let mut sample = first;
    for x in plane.iter_mut() {
        *x = sample;
        sample = sample.wrapping_add(step);
    }
}

// Kept: residual and prediction apart, here and below: `rebuild_block` takes them so, as C hands them over.
fn rebuild(rt: &impl Print, case: Case, residual: &[i32], prediction: &[u16], plane: &mut [u16]) {
    cases::put_answer(
        rt,
        picture::rebuild_block(
            case.n,
            case.bit_depth,
            residual,
            prediction,
            case.extent,
            case.x,
            case.y,
            plane,
        ),
    );
    cases::put_all(rt, plane);
}

fn call(rt: &impl Print, case: Case, residual: &[i32], prediction: &[u16], plane: &mut [u16]) {
    match case.function {
        Function::Rebuild => rebuild(rt, case, residual, prediction, plane),
        Function::Checksum => cases::put_value(
            rt,
            checksum::picture_checksum(case.extent, case.bit_depth, plane),
        ),
    }
}

fn make(stdin: &mut impl Read, plane: &mut [u16]) {
    let first = cases::next::<u16, _>(stdin);
    let step = cases::next::<u16, _>(stdin);
    fill(first, step, plane);
    let count = cases::next_length(stdin, 1024);
    cases::read_first(stdin, count, plane);
}

fn on_plane(
    rt: &impl Print,
    stdin: &mut impl Read,
    case: Case,
    residual: &[i32],
    prediction: &[u16],
) {
    let mut plane = [0u16; 78300];
    let len = cases::next_length(stdin, 78300);
    make(stdin, &mut plane);
    call(rt, case, residual, prediction, &mut plane[0..len]);
}

// One case; answers whether there was one.
fn replay(rt: &impl Print, stdin: &mut impl Read) -> bool {
    if !cases::copy_text(rt, stdin) {
        return false;
    }
    let function = Function::from(cases::next::<u8, _>(stdin));
    let case = next_case(stdin, function);
    let mut residual = [0i32; 1024];
    let mut prediction = [0u16; 1024];
    let residuals = cases::next_length(stdin, 1024);
    cases::read_first(stdin, residuals, &mut residual);
    let predictions = cases::next_length(stdin, 1024);
    cases::read_first(stdin, predictions, &mut prediction);
    on_plane(
        rt,
        stdin,
        case,
        &residual[0..residuals],
        &prediction[0..predictions],
    );
    cases::put_end(rt);
    true
}

fn main(rt: HostRuntime) {
    let mut stdin = rt.stdin();
    cases::replay_all(|| replay(&rt, &mut stdin));
}
