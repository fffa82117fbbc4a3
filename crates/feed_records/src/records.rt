// What one record does: a function for each kind, below the question of room.
ghost use Rattle.std.specs.Prelude.{◌≡◌, Ok, ◌+◌, ◌≤◌, length};
ghost use Rattle.feed_format.specs.Format.{text_room, record_room};
ghost use Rattle.feed_rules.specs.Record.{levels_effect, body_effect, record_effect};
ghost use Rattle.feed_state.specs.Buffers.{lent, in_buffers};
ghost use Rattle.feed_state.specs.Taken.{state_of, Ample, Takes};
ghost use Rattle.feed_block.specs.Work.{Accepted};
ghost use Rattle.feed_records.specs.Work.{Whole, Skips};

use crate::open_block;
use feed_format::{Kind, LevelBytes, Mode, Parameters};
use feed_state::{State, Taken, with_closed};
use refusal::Refusal;

// A block by transform skip.
// Kept: state, parameters and body apart, here and in `take_opened`: state and body come before the parameters are known to be there, and the laws take each by itself.
// Kept: a buffer and the place where its text ends apart, here and below, as in `text`.
fn take_skipped(s: State, p: Parameters, body: LevelBytes, out: &mut [u8], at: usize) -> Taken
    requires accepted { Accepted p body.size × (p.mode ≡ Mode.Skip) }
    requires n_in_bounds { at + text_room (Kind.Levels body.size) ≤ length out.old }
    ensures { Skips s p (Ok result) body.entry.size body.entry.bytes.now out.old at out.new }
{
    let n = body.size;
    let mut residual = [0i32; 1024];
    let limited = feed_block::skip_body(s, p, body, &mut residual);
    let end = feed_lines::put_rows(&residual, n, limited, out, at);
    Taken {
        state: with_closed(s, n),
        end,
    }
}

// A block of levels, by the parameters.
// Kept: the four buffers apart, here and below: a struct of lent slices would have to promise for each that it stays the same one (its ghost_name), and a struct of four arrays would be filled by a copy, since `feed::step` is lent slices.
fn take_levels(
    s: State,
    body: LevelBytes,
    levels: &mut [i32],
    coeff: &mut [i32],
    inter: &mut [i32],
    residual: &mut [i32],
    out: &mut [u8],
    at: usize,
) -> Result<Taken, Refusal>
    requires ample { Ample (lent levels.old coeff.old inter.old residual.old) }
    requires n_in_bounds { at + text_room (Kind.Levels body.size) ≤ length out.old }
    ensures { let n = body.entry.size in Takes s result (lent levels.new coeff.new inter.new residual.new) out.old at out.new (levels_effect in_buffers (state_of s (lent levels.old coeff.old inter.old residual.old)) n body.entry.bytes.now) (text_room (Kind.Levels n)) }
{
    let p = s.given.ok_or(Refusal::LevelsBeforeParameters)?;
    refusal::check_depth(p.precision.bit_depth)?;
    refusal::check(
        feed_format::dst_refused(p.mode, body.size),
        Refusal::DstSizeInvalid,
    )?;
    match p.mode {
        Mode::Transform(kind) => Ok(open_block::take_opened(
            s, p, kind, body, levels, coeff, inter, residual, out, at,
        )),
        Mode::Skip => Ok(take_skipped(s, p, body, out, at)),
    }
}

// A whole body.
fn take_body(
    s: State,
    kind: Kind,
    body: &[u8],
    levels: &mut [i32],
    coeff: &mut [i32],
    inter: &mut [i32],
    residual: &mut [i32],
    out: &mut [u8],
    at: usize,
) -> Result<Taken, Refusal>
    requires whole { Whole kind (length body.now) }
    requires ample { Ample (lent levels.old coeff.old inter.old residual.old) }
    requires kind_in_bounds { at + text_room kind ≤ length out.old }
    ensures { Takes s result (lent levels.new coeff.new inter.new residual.new) out.old at out.new (body_effect in_buffers kind (state_of s (lent levels.old coeff.old inter.old residual.old)) body.now) (text_room kind) }
{
    match kind {
        Kind::Parameters => feed_state::take_parameters(s, body, at),
        Kind::List => Ok(feed_state::take_list(s, body, at)),
        Kind::NoList => Ok(feed_state::take_no_list(s, at)),
        Kind::Levels(size) => {
            let bytes = LevelBytes { size, bytes: body };
            take_levels(s, bytes, levels, coeff, inter, residual, out, at)
        }
        Kind::Edit => open_block::take_edit(s, body, levels, coeff, inter, residual, at),
        Kind::Reading => open_block::take_reading(s, residual, out, at),
    }
}

// A record, whole or not: its text at a place of the buffer, and the state after it.
pub fn take_record(
    s: State,
    kind: u8,
    body: &[u8],
    levels: &mut [i32],
    coeff: &mut [i32],
    inter: &mut [i32],
    residual: &mut [i32],
    out: &mut [u8],
    at: usize,
) -> Result<Taken, Refusal>
    requires ample { Ample (lent levels.old coeff.old inter.old residual.old) }
    requires kind_in_bounds { at + record_room kind ≤ length out.old }
    ensures { Takes s result (lent levels.new coeff.new inter.new residual.new) out.old at out.new (record_effect in_buffers (state_of s (lent levels.old coeff.old inter.old residual.old)) kind body.now) (record_room kind) }
{
    let what = feed_format::kind_of(kind).ok_or(Refusal::KindUnknown)?;
    refusal::check(body.len() < what.body_length(), Refusal::BodyTooShort)?;
    take_body(s, what, body, levels, coeff, inter, residual, out, at)
}
