// A feed's stream of records: one record, and a whole input.
ghost use Rattle.std.specs.Prelude.{◌≡◌, ◌||◌, ◌≤◌, ltb, length};
ghost use Rattle.text.specs.Text.{Wrote, Counts};
ghost use Rattle.feed_format.specs.Room.{feed_room};
ghost use Rattle.feed_rules.specs.Feed.{feed_text};
ghost use Rattle.feed_state.specs.Buffers.{lent};
ghost use Rattle.feed_state.specs.Taken.{state_of};
ghost use Rattle.feed_history.specs.Stepping.{stepping};
ghost use Rattle.feed.specs.Answers.{Steps, Runs};

use crate::StepError;
use feed_state::{State, Taken};

// Whether a buffer of the open block has no room for the largest block.
fn too_short(levels: usize, coeff: usize, inter: usize, residual: usize) -> bool
    ensures { result ≡ (ltb levels 1024 || ltb coeff 1024) || (ltb inter 1024 || ltb residual 1024) }
{
    (levels < 1024 || coeff < 1024) || (inter < 1024 || residual < 1024)
}

// One record: its kind, and as much of its body as there is. Its text goes to the start of `out`, which must have the bytes that
// `record_room` says; the buffers of the open block have 1,024 elements or more, and are those that the call before left. Else
// `NoRoom` is answered before anything else, and the buffers are as given. A refused record too leaves all as given, so the offset of
// the state that was given is that of its kind.
// Kept: the four buffers apart, here and in the crates below: a struct of lent slices would have to promise for each that it stays the same one (its ghost_name), and a struct of four arrays would change what callers outside hand to `step`. Kind and body too: callers outside hand them so.
pub fn step(
    state: State,
    kind: u8,
    body: &[u8],
    levels: &mut [i32],
    coeff: &mut [i32],
    inter: &mut [i32],
    residual: &mut [i32],
    out: &mut [u8],
) -> Result<Taken, StepError>
    ensures { Steps state result (lent levels.new coeff.new inter.new residual.new) out.old out.new (stepping (state_of state (lent levels.old coeff.old inter.old residual.old)) kind body.now (length out.old)) }
{
    if out.len() < feed_format::record_room(kind) {
        return Err(StepError::NoRoom);
    }
    if too_short(levels.len(), coeff.len(), inter.len(), residual.len()) {
        return Err(StepError::NoRoom);
    }
    Ok(feed_records::take_record(state, kind, body, levels, coeff, inter, residual, out, 0)?)
}

// The text of a whole feed, where there is room for it.
// Kept: the loop goes from record to record, by no index; one walk for this and the listing would be generic over a record's effect, its room and both last lines, with their laws as members of a trait: more to read.
fn run_within(input: &[u8], out: &mut [u8]) -> usize
    requires { feed_room input.now ≤ length out.old }
    ensures { Wrote out.old 0 (feed_text input.now) out.new result × Counts result out.new }
{
    let mut levels = [0i32; 1024];
    let mut coeff = [0i32; 1024];
    let mut inter = [0i32; 1024];
    let mut residual = [0i32; 1024];
    let mut state = feed_state::start();
    let mut end = 0;
    while (state.offset as usize) < input.len() {
        let (kind, body) = feed_format::record_at(input, state.offset as usize);
        match feed_records::take_record(
            state,
            kind,
            body,
            &mut levels,
            &mut coeff,
            &mut inter,
            &mut residual,
            out,
            end,
        ) {
            Ok(taken) => {
                state = taken.state;
                end = taken.end;
            }
            Err(why) => return feed_lines::put_refused(why, state.offset, out, end),
        }
    }
    let blocks = state.blocks;
    feed_lines::put_blocks(blocks, out, end)
}

// The text of a whole feed at the start of `out`: the rows of its blocks, each with the count of its limited coefficients, its readings, then the line of
// a refusal or the number of blocks; the answer is where it ends. With fewer bytes than `feed_room` says it is `None`, and the buffer is as lent.
pub fn run(input: &[u8], out: &mut [u8]) -> Option<usize>
    ensures { Runs result out.old out.new input.now }
{
    if out.len() < feed_format::feed_room(input) {
        return None;
    }
    Some(run_within(input, out))
}
