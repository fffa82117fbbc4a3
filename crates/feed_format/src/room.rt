// How many bytes the text of a feed may take, by the kinds of its records.
ghost use Rattle.std.specs.Prelude.{◌≡◌, min};
ghost use Rattle.feed_format.specs.Room.{feed_room};

use crate::format;

// How many bytes the text of a whole feed may take, by its kinds; more than any buffer has where that passes 64 bits.
// Kept: the loop goes from record to record, by no index; one function for this and the listing's room would take what a record asks as a closure and promise the sum for each such closure: more to read than the loop.
pub fn feed_room(input: &[u8]) -> usize
    ensures { result ≡ min (feed_room input.now) 18446744073709551615 }
{
    let mut room: usize = 0;
    let mut at = 0;
    while at < input.len() {
        let kind = input[at];
        if format::kind_of(kind).is_none() {
            return room.saturating_add(40);
        }
        room = room.saturating_add(format::record_room(kind));
        at = (at + 1 + format::record_length(kind)).min(input.len());
    }
    room.saturating_add(40)
}
