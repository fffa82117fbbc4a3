// One block of a feed: opened on its levels, or by transform skip. Internal: callers meet each `requires`.
#![tactic(auto)]

mod block;

pub use block::{open_body, skip_body};
