// The listing program: reads a feed from standard input, a record at a time, and writes for each index of its blocks which m scaling
// uses and why. At a refusal it writes the feed's line. Where a read or a write fails it says so on standard error and ends.
#![tactic(auto)]

use feed::State;
use feed_program::{Buffers, after_step, next_record, read_failed};
use std::io::Read;

// The name that it gives itself on standard error.
const PROGRAM: &str = "scale_trace_main";

// One record: reads it, writes its lines and answers the state after it, where more may come.
// Kept: a turn of its own in each program: one for both would take the step as a closure, with a clause that its text ends inside the buffer (`after_step` asks it), and the last line.
fn turn<R: Print + Eprint>(
    rt: &R,
    stdin: &mut impl Read,
    state: State,
    buffers: &mut Buffers,
) -> Option<State> {
    let mut room = [0u8; 4096];
    let mut out = [0u8; 20480];
    let Ok(record) = next_record(stdin, &mut room) else {
        return read_failed(rt, PROGRAM);
    };
    let (kind, body) = record?;
    let Buffers {
        levels,
        coeff,
        inter,
        residual,
    } = buffers;
    let answer = scale_trace::step(state, kind, body, levels, coeff, inter, residual, &mut out);
    after_step(rt, PROGRAM, state.offset, answer, &out)
}

fn main(rt: HostRuntime) {
    let mut stdin = rt.stdin();
    let mut buffers = Buffers::new();
    feed_program::run(&mut |state| turn(&rt, &mut stdin, state, &mut buffers));
}
