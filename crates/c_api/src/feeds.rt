// A whole feed: the room that its text may take, and the text; and both of the listing of its scaling factors.
ghost use Rattle.std.specs.Prelude.{◌≡◌, min};
ghost use Rattle.feed_format.specs.Room.{feed_room};
ghost use Rattle.scale_trace_rules.specs.Trace.{listing_room};
ghost use Rattle.c_api.specs.Feeds.{Tells, RunsTo, ListsTo};

use crate::FeedRan;

impl From<Option<usize>> for FeedRan {
    ghost from_gives = { λ ran told. Tells told ran };

    fn from(ran: Option<usize>) -> FeedRan {
        match ran {
            Some(end) => FeedRan { room: true, end },
            None => FeedRan {
                room: false,
                end: 0,
            },
        }
    }
}

pub fn residual_feed_room(bytes: &[u8]) -> usize
    ensures { result ≡ min (feed_room bytes.now) 18446744073709551615 }
{
    feed::feed_room(bytes)
}

pub fn residual_feed_run(bytes: &[u8], text: &mut [u8]) -> FeedRan
    ensures { RunsTo result text.old text.new bytes.now }
{
    feed::run(bytes, text).into()
}

pub fn residual_listing_room(bytes: &[u8]) -> usize
    ensures { result ≡ min (listing_room bytes.now) 18446744073709551615 }
{
    scale_trace::listing_room(bytes)
}

pub fn residual_listing_run(bytes: &[u8], text: &mut [u8]) -> FeedRan
    ensures { ListsTo result text.old text.new bytes.now }
{
    scale_trace::run(bytes, text).into()
}
