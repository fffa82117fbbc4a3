// Scaling lists read from the bitstream, and written to one.
// Kept: C lends the three default lists, the 20 lists and their DC numbers apart, each as a slice of its own.
ghost use Rattle.scaling_lists.specs.Answers.{lists_read};
ghost use Rattle.scaling_lists_codes.specs.Syntax.{defaults};
ghost use Rattle.scaling_lists_writer.specs.Answers.{lists_written};
ghost use Rattle.c_api.specs.Lists.{Reads, Writes};

use crate::BitsAnswered;

// The 20 lists of scaling list data, and their DC numbers.
pub fn residual_read_scaling_lists(
    bytes: &[u8],
    default_4x4: &[u8],
    default_intra: &[u8],
    default_inter: &[u8],
    lists: &mut [u8],
    dcs: &mut [u8],
) -> BitsAnswered
    ensures { Reads result lists.new dcs.new (lists_read (defaults default_4x4.now default_intra.now default_inter.now) bytes.now lists.old dcs.old) }
{
    scaling_lists::read_scaling_lists(
        bytes,
        default_4x4,
        default_intra,
        default_inter,
        lists,
        dcs,
    ).into()
}

// 20 lists and their DC numbers as scaling list data.
pub fn residual_write_scaling_lists(
    lists: &[u8],
    dcs: &[u8],
    default_4x4: &[u8],
    default_intra: &[u8],
    default_inter: &[u8],
    out: &mut [u8],
) -> BitsAnswered
    ensures { Writes result out.new (lists_written (defaults default_4x4.now default_intra.now default_inter.now) lists.now dcs.now out.old) }
{
    scaling_lists_writer::write_scaling_lists(
        lists,
        dcs,
        default_4x4,
        default_intra,
        default_inter,
        out,
    ).into()
}
