// How many bytes the listing may take, by the kinds of a feed's records.
ghost use Rattle.std.specs.Prelude.{◌≡◌, min};
ghost use Rattle.feed_format.specs.Format.{kind_of};
ghost use Rattle.scale_trace_rules.specs.Trace.{size_of, list_room, listing_room};

// The size of a kind's block; 0 where a kind has none.
// Kept: 0 and no Option, here, in `line_text` and in `scale_trace`: the definitions have it so (20 n² is then 0, and a block of size 0 has no lines), and a None would
// be one arm more in each.
// Kept: by the byte itself, here and in `list_room`, as in `feed_format`: no size is squared in a walk over a feed.
#[tactic(auto, using(crate::proofs::RoomLaws::size_none), unfolding(feed_format::specs::Format::kind_of))]
pub fn size_of(kind: u8) -> usize
    ensures { result ≡ size_of (kind_of kind) }
{
    match kind {
        4 => 4,
        5 => 8,
        6 => 16,
        7 => 32,
        _ => 0,
    }
}

// How many bytes the lines of a record may take.
#[tactic(auto, using(crate::proofs::RoomLaws::list_none), unfolding(scale_trace_rules::specs::Trace::list_room, feed_format::specs::Format::kind_of))]
pub fn list_room(kind: u8) -> usize
    ensures { result ≡ list_room kind }
{
    match kind {
        4 => 320,
        5 => 1280,
        6 => 5120,
        7 => 20480,
        _ => 0,
    }
}

// How many bytes the listing of a whole feed may take, by its kinds; more than any buffer has where that passes 64 bits.
// Kept: the loop goes from record to record, by no index; to share it with `feed_room` would take a closure, and a clause for whatever that gives.
#[tactic(auto, using(feed_format::proofs::RoomLaws::room_start))]
pub fn listing_room(input: &[u8]) -> usize
    ensures { result ≡ min (listing_room input.now) 18446744073709551615 }
{
    let mut room: usize = 0;
    let mut at = 0;
    while at < input.len() {
        let kind = input[at];
        if feed_format::kind_of(kind).is_none() {
            return room.saturating_add(40);
        }
        room = room.saturating_add(list_room(kind));
        at = (at + 1 + feed_format::record_length(kind)).min(input.len());
    }
    room.saturating_add(40)
}
