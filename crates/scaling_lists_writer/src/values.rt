// Row 16: whether an entry that is used or a DC number is 0, which no bitstream can say.
ghost use Rattle.std.specs.Prelude.{◌≡◌, true, cond, not, eqb};
ghost use Rattle.scaling_lists_codes.specs.Syntax.{size_id};
ghost use Rattle.scaling_lists_written.specs.Same.{has_dc};
ghost use Rattle.scaling_lists_put.specs.Lists.{factor_list, set_lists};
ghost use Rattle.scaling_lists_writer.specs.Answers.{nonzero, values_refused};

use scaling_lists_put::{HeldList, ListSet};

fn nonzero_dc(j: usize, dc: u8) -> bool
    ensures { result ≡ cond (has_dc (size_id j)) (not (eqb dc 0)) true }
{
    !scaling_lists_put::has_dc(j) || dc != 0
}

// Whether a list can be written to the size of list j.
fn nonzero_list(list: HeldList, j: usize) -> bool
    ensures { result ≡ nonzero (size_id j) (factor_list list.entry) }
{
    let n = scaling_lists_put::used_count(j);
    !list.entries[..n].contains(&0) && nonzero_dc(j, list.dc)
}

pub(crate) fn values_refused(set: ListSet) -> bool
    ensures { result ≡ values_refused (set_lists set.entry) }
{
    for j in 0..20 {
        if !nonzero_list(set.list(j), j) {
            return true;
        }
    }
    false
}
