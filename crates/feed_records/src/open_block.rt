// The block that a feed holds open: opened by a levels record, edited, and read.
ghost use Rattle.std.specs.Prelude.{◌≡◌, Some, Ok, ◌+◌, ◌≤◌, length};
ghost use Rattle.feed_format.specs.Format.{text_room};
ghost use Rattle.feed_rules.specs.Record.{levels_by, edit_effect};
ghost use Rattle.feed_state.specs.Buffers.{lent, in_buffers};
ghost use Rattle.feed_state.specs.Taken.{state_of, Ample, Takes, Quiet};
ghost use Rattle.feed_block.specs.Work.{Accepted};
ghost use Rattle.feed_records.specs.Work.{Reads};

use feed_format::{Kind, LevelBytes, Mode, Parameters};
use feed_state::{State, Taken, with_open};
use refusal::Refusal;

// A block by a transform, which stays open.
// Kept: the four buffers apart, here and below: a struct of lent slices would have to promise for each that it stays the same one (its ghost_name), and a struct of four arrays would be filled by a copy, since `feed::step` is lent slices.
// Kept: a buffer and the place where its text ends apart, here and below, as in `text`.
pub(crate) fn take_opened(
    s: State,
    p: Parameters,
    kind: transform_1d::Kind,
    body: LevelBytes,
    levels: &mut [i32],
    coeff: &mut [i32],
    inter: &mut [i32],
    residual: &mut [i32],
    out: &mut [u8],
    at: usize,
) -> Taken
    requires accepted { Accepted p body.size × (p.mode ≡ Mode.Transform kind) }
    requires ample { Ample (lent levels.old coeff.old inter.old residual.old) }
    requires n_in_bounds { at + text_room (Kind.Levels body.size) ≤ length out.old }
    ensures { let n = body.entry.size in Takes s (Ok result) (lent levels.new coeff.new inter.new residual.new) out.old at out.new (levels_by in_buffers (Some p) (state_of s (lent levels.old coeff.old inter.old residual.old)) n body.entry.bytes.now) (text_room (Kind.Levels n)) }
{
    let n = body.size;
    let opened = feed_block::open_body(s, p, kind, body, levels, coeff, inter, residual);
    let end = feed_lines::put_rows(residual, n, opened.limited, out, at);
    Taken {
        state: with_open(
            s,
            opened.block,
            s.blocks.saturating_add(1),
            Kind::Levels(n).body_length(),
        ),
        end,
    }
}

// An edit of the open block.
pub(crate) fn take_edit(
    s: State,
    body: &[u8],
    levels: &mut [i32],
    coeff: &mut [i32],
    inter: &mut [i32],
    residual: &mut [i32],
    at: usize,
) -> Result<Taken, Refusal>
    requires { 6 ≤ length body.now }
    ensures { Quiet s result (lent levels.new coeff.new inter.new residual.new) at (edit_effect in_buffers (state_of s (lent levels.old coeff.old inter.old residual.old)) body.now) }
{
    let mut held = s.held.ok_or(Refusal::BlockMissing)?;
    let row = usize::from(body[0]);
    let column = usize::from(body[1]);
    let level = feed_format::edit_level(body);
    level_block::edit_level(
        &mut held, levels, coeff, inter, residual, row, column, level,
    )?;
    Ok(Taken {
        state: with_open(s, held, s.blocks, Kind::Edit.body_length()),
        end: at,
    })
}

// A reading of the open block.
pub(crate) fn take_reading(
    s: State,
    residual: &[i32],
    out: &mut [u8],
    at: usize,
) -> Result<Taken, Refusal>
    requires in_bounds { 1024 ≤ length residual.now }
    requires text_room_in_bounds { at + text_room Kind.Reading ≤ length out.old }
    ensures { Reads s result residual.now out.old at out.new }
{
    let held = s.held.ok_or(Refusal::BlockMissing)?;
    refusal::check_size(held.size)?;
    let end = feed_lines::put_reading(residual, held.size, held.columns, out, at);
    Ok(Taken {
        state: with_open(s, held, s.blocks, Kind::Reading.body_length()),
        end,
    })
}
