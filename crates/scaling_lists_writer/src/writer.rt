// All lists: into a local buffer of bits, and handed out as bytes only once it is known that they have room.
ghost use Rattle.std.specs.Prelude.{◌≡◌};
ghost use Rattle.scaling_lists_codes.specs.Syntax.{defaults};
ghost use Rattle.scaling_lists_taken.specs.Lent.{lent_lists};
ghost use Rattle.scaling_lists_written.specs.Written.{written_lists};
ghost use Rattle.scaling_lists_put.specs.Lists.{set_lists};
ghost use Rattle.scaling_lists_writer.specs.Answers.{written, lists_written, Writes};

use crate::values;
use refusal::Refusal;
use scaling_lists_put::ListSet;
use scaling_lists_taken::DefaultLists;

// The lists as bits, and those as bytes at the start of the caller's buffer.
fn write_within(set: ListSet, defaults: DefaultLists, out: &mut [u8]) -> Result<usize, Refusal>
    ensures { Writes result out.new (written out.old (written_lists (lent_lists defaults.entry) (set_lists set.entry))) }
{
    let mut bits = [0u8; 22120];
    let count = scaling_lists_put::put_lists(set, defaults, &mut bits);
    let bytes = count.div_ceil(8);
    refusal::check(out.len() < bytes, Refusal::OutputTooShort)?;
    bits_written::put_bytes(&bits, &mut out[..bytes]);
    Ok(count)
}

// Kept: defaults, lists and DC numbers are slices of their own, as C lends them.
// Writes the 20 lists as scaling list data from the first bit of `out` on: list j stands in `lists` from index 64 × j on, its entries in
// row order, and its DC in `dcs` at index j, as the reader leaves them. The rest of the last byte is 0, and the bytes behind it stay. A
// refused call changes nothing.
#[tactic(auto, unfolding(crate::specs::Answers::lists_written))]
pub fn write_scaling_lists(
    lists: &[u8],
    dcs: &[u8],
    default_4x4: &[u8],
    default_intra: &[u8],
    default_inter: &[u8],
    out: &mut [u8],
) -> Result<usize, Refusal>
    ensures { Writes result out.new (lists_written (defaults default_4x4.now default_intra.now default_inter.now) lists.now dcs.now out.old) }
{
    let defaults = DefaultLists::new(default_4x4, default_intra, default_inter)?;
    let set = ListSet::new(lists, dcs)?;
    refusal::check(values::values_refused(set), Refusal::ListValueInvalid(0))?;
    write_within(set, defaults, out)
}
