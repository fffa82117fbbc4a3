// The feed program: reads a feed from standard input, a record at a time, and writes its text to standard output. Where a read or
// a write fails it says so on standard error and ends: no `blocks` line and no `refused` line then says that the text is whole.
#![tactic(auto)]

use feed::State;
use feed_program::{Buffers, after_step, next_record, read_failed, write_last};
use std::io::Read;

// The name that it gives itself on standard error.
const PROGRAM: &str = "feed_main";

// One record: reads it, writes its text and answers the state after it, where more may come.
// Kept: a turn of its own in each program: one for both would take the step as a closure, with a clause that its text ends inside the buffer (`after_step` asks it), and the last line.
fn turn<R: Print + Eprint>(
    rt: &R,
    stdin: &mut impl Read,
    state: State,
    buffers: &mut Buffers,
) -> Option<State> {
    let mut room = [0u8; 4096];
    let mut out = [0u8; 12320];
    let Ok(record) = next_record(stdin, &mut room) else {
        return read_failed(rt, PROGRAM);
    };
    let Some((kind, body)) = record else {
        return write_last(rt, PROGRAM, feed::blocks_line(state.blocks));
    };
    let Buffers {
        levels,
        coeff,
        inter,
        residual,
    } = buffers;
    let answer = feed::step(state, kind, body, levels, coeff, inter, residual, &mut out);
    after_step(rt, PROGRAM, state.offset, answer, &out)
}

fn main(rt: HostRuntime) {
    let mut stdin = rt.stdin();
    let mut buffers = Buffers::new();
    feed_program::run(&mut |state| turn(&rt, &mut stdin, state, &mut buffers));
}
