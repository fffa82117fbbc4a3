// One list, and its place among those read.
ghost use Rattle.std.specs.Prelude.{◌≡◌, ◌+◌, ◌≤◌, ◌<◌, IfOk};
ghost use Rattle.scaling_lists_codes.specs.Syntax.{list_code};
ghost use Rattle.scaling_lists_taken.specs.Lent.{lent_lists};
ghost use Rattle.scaling_lists.specs.Work.{read_as, listed, one_more, lists_held};

use crate::held::Lists;
use crate::{coded, taken};
use refusal::Refusal;
use scaling_lists_taken::DefaultLists;

// Kept: defaults and held apart, here, in taken.rt and in reader.rt: held grows, so that a struct with it would promise at each step that the defaults are the same, or, of a lent
// held, be made anew for each list.
// List j, from its flag on: DC and the offset behind it.
fn read_list(
    bytes: &[u8],
    at: usize,
    j: usize,
    defaults: DefaultLists,
    held: &Lists,
    entries: &mut [u8; 64],
) -> Result<(u8, usize), Refusal>
    requires { (j < 20) × (at ≤ 1048576) }
    ensures { (listed entries.new result ≡ list_code (lent_lists defaults.entry) bytes.now (lists_held j held.now) at) × IfOk result (λ r. r.1 ≤ at + 4226) }
{
    refusal::check(!bits::is_there(bytes, at), Refusal::BitsEnded(at))?;
    if bits::bit(bytes, at) == 0 {
        return taken::taken_over(bytes, at + 1, j, defaults, held, entries);
    }
    coded::coded_list(bytes, j / 6, at + 1, entries)
}

// List j, put behind those read; the answer is the offset behind it.
pub(crate) fn read_next(
    bytes: &[u8],
    at: usize,
    j: usize,
    defaults: DefaultLists,
    held: &mut Lists,
) -> Result<usize, Refusal>
    requires { (j < 20) × (at ≤ 1048576) }
    ensures { (read_as (lists_held (j + 1) held.new) result ≡ one_more (lent_lists defaults.entry) bytes.now (lists_held j held.old) at) × IfOk result (λ behind. behind ≤ at + 4226) }
{
    let mut entries = [0u8; 64];
    let (dc, behind) = read_list(bytes, at, j, defaults, held, &mut entries)?;
    held.entries[64 * j..64 * j + 64].copy_from_slice(&entries);
    held.dcs[j] = dc;
    Ok(behind)
}
