// The state before the first record, and the states behind one, with a block open after it or with none; and the list in force as scaling takes it.
ghost use Rattle.std.specs.Prelude.{◌≡◌, Some, ◌+◌, min, T};
ghost use Rattle.h265.specs.Range.{is_size};
ghost use Rattle.scaling_values.specs.Given.{list_of, entries_of};
ghost use Rattle.feed_rules.specs.Block.{list_in, list_for};
ghost use Rattle.feed_rules.specs.Record.{counted};
ghost use Rattle.feed_rules.specs.Feed.{beginning};
ghost use Rattle.feed_state.specs.Buffers.{Lent, closed, closed_in};
ghost use Rattle.feed_state.specs.Taken.{state_of, capped};

use crate::State;
use edited_block::EditedBlock;
use feed_format::{Kind, List, Mode};
use scaling_values::ScalingList;

// The state before the first record.
pub fn start() -> State
    ensures { (w : Lent) → state_of result w ≡ beginning (closed w) }
{
    State {
        given: None,
        list: None,
        held: None,
        blocks: 0,
        offset: 0,
    }
}

// The list in force, or none, as scaling takes it.
pub fn scaling_list(list: &Option<List>) -> ScalingList
    ensures value { list_of result ≡ list_in list.now }
    ensures entries { entries_of (list_in list.now) ≡ 64 }
{
    match list {
        Some(list) => ScalingList::Listed(&list.entries, list.dc),
        None => ScalingList::Flat,
    }
}

// The list by which a block is scaled, by the one in force.
pub fn list_for(list: &Option<List>, mode: Mode, n: usize) -> ScalingList
    ensures value { list_of result ≡ list_for mode n (list_in list.now) }
    ensures entries { entries_of (list_for mode n (list_in list.now)) ≡ 64 }
{
    if feed_format::list_ignored(mode, n) {
        return ScalingList::Flat;
    }
    scaling_list(list)
}

// The offset behind a record with a body of this length; it stops before it would wrap.
pub(crate) fn behind(offset: u64, length: usize) -> u64
    ensures { result ≡ min (offset + 1 + length) 18446744073709551615 }
{
    offset.saturating_add(1).saturating_add(length as u64)
}

// The state with an open block, behind a record with a body of this length.
pub fn with_open(s: State, block: EditedBlock, blocks: u64, length: usize) -> State
    ensures { result ≡ record { given = s.given; list = s.list; held = Some block; blocks = blocks; offset = min (s.offset + 1 + length) 18446744073709551615 } }
{
    State {
        held: Some(block),
        blocks,
        offset: behind(s.offset, length),
        ..s
    }
}

// The state behind a block that cannot be edited.
pub fn with_closed(s: State, n: usize) -> State
    requires { T (is_size n) }
    ensures { (w : Lent) → state_of result w ≡ capped (counted (state_of s w) (closed_in (state_of s w).block) n) }
{
    State {
        held: None,
        blocks: s.blocks.saturating_add(1),
        offset: behind(s.offset, Kind::Levels(n).body_length()),
        ..s
    }
}
