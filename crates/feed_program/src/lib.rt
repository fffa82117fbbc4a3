// What the two programs that read a feed from standard input do around a record: `feed_main` and `scale_trace_main`. Internal.
#![tactic(auto)]

ghost use Rattle.std.specs.Prelude.{◌≡◌, ◌≤◌, ◌⊎◌, pos, true, length, replicate, IfOk, None, Some, Ok};
ghost use Rattle.feed_rules.specs.Feed.{beginning};
ghost use Rattle.feed_state.specs.Buffers.{Lent, closed};
ghost use Rattle.feed_state.specs.Taken.{state_of};
ghost use Rattle.feed_program.specs.Reading.{Ended, NextRead, TurnsFrom};

use feed::{Line, State, StepError, Taken};
use std::io::Read;

// The buffers of a feed's open block, each with room for the largest.
#[derive(Drop)]
pub struct Buffers {
    pub levels: [i32; 1024],
    pub coeff: [i32; 1024],
    pub inter: [i32; 1024],
    pub residual: [i32; 1024],
}

impl Buffers {
    pub fn new() -> Buffers
        ensures { (result.levels ≡ replicate 1024 (pos 0)) × (result.coeff ≡ replicate 1024 (pos 0)) × (result.inter ≡ replicate 1024 (pos 0)) × (result.residual ≡ replicate 1024 (pos 0)) }
    {
        Buffers {
            levels: [0; 1024],
            coeff: [0; 1024],
            inter: [0; 1024],
            residual: [0; 1024],
        }
    }
}

// Says that a read failed; nothing more is read.
pub fn read_failed(rt: &impl Eprint, program: &str) -> Option<State>
    ensures { result ≡ None }
{
    let _ = eprintln!(rt; "{program}: a read of standard input failed, so this text is not whole");
    None
}

// Says that a write failed; nothing more is written.
fn write_failed(rt: &impl Eprint, program: &str) -> Option<State>
    ensures { result ≡ None }
{
    let _ = eprintln!(rt;
        "{program}: a write to standard output failed, so this text is not whole"
    );
    None
}

// The last line; nothing more is read behind it.
pub fn write_last<R: Print + Eprint>(rt: &R, program: &str, line: Line) -> Option<State>
    ensures { result ≡ None }
{
    if !streams::write_all(rt, &line.bytes[..line.end]) {
        return write_failed(rt, program);
    }
    None
}

// Whether one more read says that the input has ended; `false` says nothing.
fn has_ended<R: Read>(stdin: &mut R) -> bool
    ensures { result ≡ true → Ended (R.remaining stdin.old) (R.remaining stdin.new) }
{
    let mut byte = [0u8; 1];
    matches!(stdin.read(&mut byte), Ok(0))
}

// A read of the input failed.
#[derive(Clone, Copy)]
pub struct ReadFailed;

// The next record, its kind and its body, where the input has one. A body is cut short where the input has ended; where one more read does not say so, a read failed.
pub fn next_record<'a, R: Read>(
    stdin: &mut R,
    room: &'a mut [u8; 4096],
) -> Result<Option<(u8, &'a [u8])>, ReadFailed>
    ensures { IfOk result (λ next. NextRead (R.remaining stdin.old) next (R.remaining stdin.new)) }
{
    let mut byte = [0u8; 1];
    let got = stdin.read(&mut byte).map_err(|_| ReadFailed)?;
    if got == 0 {
        return Ok(None);
    }
    let kind = byte[0];
    let n = feed::record_length(kind);
    let there = streams::read_full(stdin, &mut room[..n]);
    if there < n && !has_ended(stdin) {
        return Err(ReadFailed);
    }
    Ok(Some((kind, &room[..there])))
}

// What follows a step from a state at an offset: its text or its refusal is written, and more may come after a record that was taken.
pub fn after_step<R: Print + Eprint>(
    rt: &R,
    program: &str,
    offset: u64,
    answer: Result<Taken, StepError>,
    out: &[u8],
) -> Option<State>
    requires { IfOk answer (λ taken. taken.end ≤ length out.now) }
    ensures { (result ≡ None) ⊎ ((taken : Taken) × (answer ≡ Ok taken) × (result ≡ Some taken.state)) }
{
    match answer {
        Ok(taken) => {
            if !streams::write_all(rt, &out[..taken.end]) {
                return write_failed(rt, program);
            }
            Some(taken.state)
        }
        Err(StepError::Refused(why)) => write_last(rt, program, feed::refusal_line(why, offset)),
        Err(StepError::NoRoom) => None,
    }
}

// The loop over the records of a feed, which ends where a turn answers no state. The count of turns is for the proof alone.
pub fn run<F: FnMut(State) -> Option<State>>(turn: &mut F)
    requires { F.IsAlwaysCallable turn.old }
    ensures { (first : State) × ((w : Lent) → state_of first w ≡ beginning (closed w)) × TurnsFrom F.step turn.old first turn.new }
{
    let mut state = feed::start();
    for done in 0..u64::MAX {
        let Some(next) = turn(state) else {
            break;
        };
        state = next;
    }
}
