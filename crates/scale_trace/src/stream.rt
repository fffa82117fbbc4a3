// The listing of a feed: one record, and a whole input. The feed's own step gives answer and state.
ghost use Rattle.std.specs.Prelude.{◌≡◌, ◌+◌, ◌*◌, ◌<◌, ◌≤◌, T, length};
ghost use Rattle.h265.specs.Range.{is_size};
ghost use Rattle.text.specs.Text.{Wrote, WroteUpTo, Counts};
ghost use Rattle.feed_rules.specs.Block.{list_in};
ghost use Rattle.feed_state.specs.Buffers.{lent};
ghost use Rattle.feed_state.specs.Taken.{state_of};
ghost use Rattle.feed.specs.Answers.{Steps};
ghost use Rattle.scale_trace_rules.specs.Trace.{levels_lines, list_room, trace_text, listing_room};
ghost use Rattle.scale_trace.specs.Work.{tracing, Lists, refusal_of, TracesAt};

use feed::{StepError, Taken};
use feed_state::State;

// The lines of a block, by the parameters; a block of size 0 has none.
// Kept: a buffer and the place where its text ends apart, here and below, as in `text`.
#[tactic(auto, using(text::proofs::WroteLaws::wrote_none))]
fn put_levels(state: &State, n: usize, out: &mut [u8], at: usize) -> usize
    requires t { 0 < n → T (is_size n) }
    requires n_in_bounds { at + 20 * (n * n) ≤ length out.old }
    ensures { WroteUpTo out.old at (levels_lines state.now.given (list_in state.now.list) n) out.new result (at + 20 * (n * n)) }
{
    match state.given {
        None => at,
        Some(p) => scale_trace_block::put_lines(&state.list, p.mode, n, out, at),
    }
}

// The bytes that the text of any record may take.
const TEXT: usize = 12320;

// A record, whole or not: its lines at a place of the buffer. The text that the feed writes goes to a buffer that is lent for it, and that a walk over a feed fills with zeros once.
// Kept: the four buffers apart, here and below: a struct of lent slices would have to promise for each that it stays the same one (its ghost_name), and a struct of four arrays would be filled by a copy, since `feed::step` is lent slices.
#[tactic(auto, using(crate::proofs::StepLaws::kind_side, scale_trace_block::proofs::RoomLaws::room_is))]
fn take_record(
    state: State,
    kind: u8,
    body: &[u8],
    levels: &mut [i32],
    coeff: &mut [i32],
    inter: &mut [i32],
    residual: &mut [i32],
    text: &mut [u8; TEXT],
    out: &mut [u8],
    at: usize,
) -> Result<Taken, StepError>
    requires { at + list_room kind ≤ length out.old }
    ensures { TracesAt state result (lent levels.new coeff.new inter.new residual.new) out.old at out.new (tracing (state_of state (lent levels.old coeff.old inter.old residual.old)) kind body.now (list_room kind)) (list_room kind) }
{
    let taken = feed::step(state, kind, body, levels, coeff, inter, residual, text)?;
    let end = put_levels(&state, scale_trace_block::size_of(kind), out, at);
    Ok(Taken { end, ..taken })
}

// One record: its kind, and as much of its body as there is; answer, state and the buffers of the open block are those of the feed's
// step. Its lines go to the start of `out`, which must have 20 bytes for each index of its block; else, or where a buffer of the open
// block has fewer than 1,024 elements, `NoRoom` is answered before anything else, and the buffers are as given. A refused record
// too leaves all as given.
pub fn step(
    state: State,
    kind: u8,
    body: &[u8],
    levels: &mut [i32],
    coeff: &mut [i32],
    inter: &mut [i32],
    residual: &mut [i32],
    out: &mut [u8],
) -> Result<Taken, StepError>
    ensures { Steps state result (lent levels.new coeff.new inter.new residual.new) out.old out.new (tracing (state_of state (lent levels.old coeff.old inter.old residual.old)) kind body.now (length out.old)) }
{
    if out.len() < scale_trace_block::list_room(kind) {
        return Err(StepError::NoRoom);
    }
    let mut text = [0u8; TEXT];
    take_record(
        state, kind, body, levels, coeff, inter, residual, &mut text, out, 0,
    )
}

// The line of a refusal.
#[tactic(auto, using(text::proofs::WroteLaws::wrote_none, scale_trace_block::proofs::LineLaws::within))]
fn put_refusal(error: StepError, offset: u64, out: &mut [u8], at: usize) -> usize
    requires { at + 40 ≤ length out.old }
    ensures { WroteUpTo out.old at (refusal_of error offset) out.new result (at + 40) }
{
    match error {
        StepError::Refused(why) => feed_lines::put_refused(why, offset, out, at),
        StepError::NoRoom => at,
    }
}

// The listing of a whole feed, where there is room for it.
// Kept: the loop goes from record to record, by no index; one walk for this and `feed::run` would be generic over lines, last line and room, with their laws
// as members of a trait: more to read than the loop.
fn run_within(input: &[u8], out: &mut [u8]) -> usize
    requires { listing_room input.now ≤ length out.old }
    ensures { Wrote out.old 0 (trace_text input.now) out.new result × Counts result out.new }
{
    let mut levels = [0i32; 1024];
    let mut coeff = [0i32; 1024];
    let mut inter = [0i32; 1024];
    let mut residual = [0i32; 1024];
    let mut text = [0u8; TEXT];
    let mut state = feed_state::start();
    let mut end = 0;
    while (state.offset as usize) < input.len() {
        let (kind, body) = feed_format::record_at(input, state.offset as usize);
        match take_record(
            state,
            kind,
            body,
            &mut levels,
            &mut coeff,
            &mut inter,
            &mut residual,
            &mut text,
            out,
            end,
        ) {
            Ok(taken) => {
                state = taken.state;
                end = taken.end;
            }
            Err(why) => return put_refusal(why, state.offset, out, end),
        }
    }
    end
}

// The listing of a whole feed at the start of `out`: the lines of its blocks, then the line of a refusal; the answer is where it ends. With fewer bytes than
// `listing_room` says the answer is `None`, and the buffer is as lent.
pub fn run(input: &[u8], out: &mut [u8]) -> Option<usize>
    ensures { Lists result out.old out.new input.now }
{
    if out.len() < scale_trace_block::listing_room(input) {
        return None;
    }
    Some(run_within(input, out))
}
