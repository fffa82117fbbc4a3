// A whole feed: the room that its text may take, and the text; and both of the listing of its scaling factors.
ghost use Rattle.std.specs.Prelude.{◌≡◌, min};
ghost use Rattle.feed_format.specs.Room.{feed_room};
ghost use Rattle.scale_trace_rules.specs.Trace.{listing_room};
ghost use Rattle.c_api.specs.Feeds.{RunsTo, ListsTo};

use c_api::FeedRan;

#[unsafe(no_mangle)]
pub extern "C" fn residual_feed_room(bytes: &[u8]) -> usize
    ensures { result ≡ min (feed_room bytes.now) 18446744073709551615 }
{
    c_api::residual_feed_room(bytes)
}

#[unsafe(no_mangle)]
pub extern "C" fn residual_feed_run(bytes: &[u8], text: &mut [u8]) -> FeedRan
    ensures { RunsTo result text.old text.new bytes.now }
{
    c_api::residual_feed_run(bytes, text)
}

#[unsafe(no_mangle)]
pub extern "C" fn residual_listing_room(bytes: &[u8]) -> usize
    ensures { result ≡ min (listing_room bytes.now) 18446744073709551615 }
{
    c_api::residual_listing_room(bytes)
}

#[unsafe(no_mangle)]
pub extern "C" fn residual_listing_run(bytes: &[u8], text: &mut [u8]) -> FeedRan
    ensures { ListsTo result text.old text.new bytes.now }
{
    c_api::residual_listing_run(bytes, text)
}
