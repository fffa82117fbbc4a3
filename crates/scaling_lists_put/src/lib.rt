// Scaling lists compared, and put into a buffer of bits. Internal: the crate above calls these and meets what they require.
#![tactic(auto)]

mod codes;
mod held;
mod list;
mod same;
mod set;

pub use list::put_lists;
pub use same::{has_dc, used_count};
pub use set::{HeldList, ListSet};
