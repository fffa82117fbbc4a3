// All lists: into local buffers, and copied out only once the last one is read.
ghost use Rattle.std.specs.Prelude.{◌≡◌};
ghost use Rattle.scaling_lists_codes.specs.Syntax.{defaults, scaling_list_data};
ghost use Rattle.scaling_lists_taken.specs.Lent.{lent_lists};
ghost use Rattle.scaling_lists.specs.Answers.{lists_read, Reads};
ghost use Rattle.scaling_lists.specs.Work.{read_as, lists_held};

use crate::held::Lists;
use crate::list;
use refusal::Refusal;
use scaling_lists_taken::DefaultLists;

// The 20 lists, one behind the other; the answer is how many bits they take.
fn read_all(bytes: &[u8], defaults: DefaultLists, held: &mut Lists) -> Result<usize, Refusal>
    ensures { read_as (lists_held 20 held.new) result ≡ scaling_list_data (lent_lists defaults.entry) bytes.now }
{
    let mut at: usize = 0;
    for j in 0..20 {
        at = list::read_next(bytes, at, j, defaults, held)?;
    }
    Ok(at)
}

// Kept: defaults, lists and DC numbers are slices of their own, as C lends them.
// Reads scaling list data from the first bit of `bytes` on: list j of the 20 goes to `lists` from index 64 × j on, its entries in row
// order, and its DC to `dcs` at index j. A refused call changes neither.
#[tactic(auto, unfolding(crate::specs::Answers::lists_read, crate::specs::Answers::room_refused))]
pub fn read_scaling_lists(
    bytes: &[u8],
    default_4x4: &[u8],
    default_intra: &[u8],
    default_inter: &[u8],
    lists: &mut [u8],
    dcs: &mut [u8],
) -> Result<usize, Refusal>
    ensures { Reads result lists.new dcs.new (lists_read (defaults default_4x4.now default_intra.now default_inter.now) bytes.now lists.old dcs.old) }
{
    let defaults = DefaultLists::new(default_4x4, default_intra, default_inter)?;
    refusal::check(lists.len() < 1280, Refusal::OutputTooShort)?;
    refusal::check(dcs.len() < 20, Refusal::OutputTooShort)?;
    let mut held = Lists {
        entries: [0; 1280],
        dcs: [0; 20],
    };
    let bits = read_all(bytes, defaults, &mut held)?;
    lists[..1280].copy_from_slice(&held.entries);
    dcs[..20].copy_from_slice(&held.dcs);
    Ok(bits)
}
