// Lists compared: the entries that a size uses, and DC where it has one.
ghost use Rattle.std.specs.Prelude.{◌≡◌, true, cond, ◌≤◌, ◌<◌, eqb};
ghost use Rattle.scaling_lists_codes.specs.Syntax.{size_id, matrix_id};
ghost use Rattle.scaling_lists_taken.specs.Lent.{lent_lists};
ghost use Rattle.scaling_lists_written.specs.Same.{has_dc, used_count, same_list, list_at};
ghost use Rattle.scaling_lists_written.specs.Written.{default_list};
ghost use Rattle.scaling_lists_put.specs.Lists.{factor_list, set_lists, Nearest};

use crate::set::{HeldList, ListSet};
use scaling_lists_taken::DefaultLists;

// How many entries list j uses.
pub fn used_count(j: usize) -> usize
    ensures { (result ≡ used_count (size_id j)) × (result ≤ 64) }
{
    if j / 6 == 0 { 16 } else { 64 }
}

// Whether list j has a DC number.
pub fn has_dc(j: usize) -> bool
    ensures { result ≡ has_dc (size_id j) }
{
    1 < j / 6
}

// Kept: no derived equality, here and below: entries that a size does not use, and DC where it has none, do not count.
fn same_dc(j: usize, a: u8, b: u8) -> bool
    ensures { result ≡ cond (has_dc (size_id j)) (eqb a b) true }
{
    !has_dc(j) || a == b
}

// Whether two lists are the same to the size of list j.
fn same_list(a: HeldList, b: HeldList, j: usize) -> bool
    ensures { result ≡ same_list (size_id j) (factor_list a.entry) (factor_list b.entry) }
{
    let n = used_count(j);
    a.entries[..n] == b.entries[..n] && same_dc(j, a.dc, b.dc)
}

// Whether list j is the same as its default with DC 16.
pub(crate) fn is_default(set: ListSet, defaults: DefaultLists, j: usize) -> bool
    requires { j < 20 }
    ensures { result ≡ same_list (size_id j) (list_at (set_lists set.entry) j) (default_list (lent_lists defaults.entry) (size_id j) (matrix_id j)) }
{
    let default = HeldList {
        entries: defaults.of(j),
        dc: 16,
    };
    same_list(set.list(j), default, j)
}

// How many lists stand between list j and the nearest earlier one of its size that is the same, if one is.
pub(crate) fn nearest(set: ListSet, j: usize) -> Option<usize>
    requires { j < 20 }
    ensures { Nearest (set_lists set.entry) j result }
{
    let earlier = j % 6;
    for d in 0..earlier {
        if same_list(set.list(j), set.list(j - 1 - d), j) {
            return Some(d);
        }
    }
    None
}
