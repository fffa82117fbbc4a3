// One list by the form that it takes, and the 20 lists one behind the other.
ghost use Rattle.std.specs.Prelude.{◌≡◌, ◌∷◌, ◌+◌, ◌≤◌, ◌<◌, length};
ghost use Rattle.text.specs.Text.{WroteUpTo};
ghost use Rattle.bits_written.specs.Codes.{unsigned_bits};
ghost use Rattle.scaling_lists_taken.specs.Lent.{lent_lists};
ghost use Rattle.scaling_lists_written.specs.Written.{list_bits, written_lists};
ghost use Rattle.scaling_lists_put.specs.Lists.{set_lists};

use crate::set::ListSet;
use crate::{codes, same};
use scaling_lists_taken::DefaultLists;

// A list that is taken over: its flag, and how many lists back it stands; 0 for the default.
fn put_taken(back: usize, bits: &mut [u8], at: usize) -> usize
    requires { (back ≤ 6) × (at + 18 ≤ length bits.old) }
    ensures { WroteUpTo bits.old at (0 ∷ unsigned_bits back) bits.new result (at + 18) }
{
    bits[at] = 0;
    bits_written::put_code(back as u64, bits, at + 1)
}

// Kept: set and defaults apart, here, in same.rt and in the crate above: only is_default asks both, and a struct of both would be taken apart there.
// List j: the default, else the nearest reference, else in full.
#[tactic(auto, unfolding(scaling_lists_written::specs::Written::earlier))]
fn put_list(set: ListSet, defaults: DefaultLists, j: usize, bits: &mut [u8], at: usize) -> usize
    requires { (j < 20) × (at + 1106 ≤ length bits.old) }
    ensures { WroteUpTo bits.old at (list_bits (lent_lists defaults.entry) (set_lists set.entry) j) bits.new result (at + 1106) }
{
    if same::is_default(set, defaults, j) {
        return put_taken(0, bits, at);
    }
    if let Some(between) = same::nearest(set, j) {
        return put_taken(between + 1, bits, at);
    }
    bits[at] = 1;
    codes::put_full(set.list(j), j, bits, at + 1)
}

// All 20 lists, from the first bit on; the answer is how many bits they take.
pub fn put_lists(set: ListSet, defaults: DefaultLists, bits: &mut [u8]) -> usize
    requires { 22120 ≤ length bits.old }
    ensures { WroteUpTo bits.old 0 (written_lists (lent_lists defaults.entry) (set_lists set.entry)) bits.new result 22120 }
{
    let mut at: usize = 0;
    for j in 0..20 {
        at = put_list(set, defaults, j, bits, at);
    }
    at
}
