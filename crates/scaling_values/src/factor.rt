// The scaling factor m at an index of a block. No division: a size is a power of two.
ghost use Rattle.std.specs.Prelude.{◌≡◌, ◌+◌, ◌-◌, ◌*◌, ◌/◌, ◌%◌, ◌^◌, ◌<◌, ◌≤◌, length};
ghost use Rattle.h265.specs.ScalingFactor.{scaling_factor};
ghost use Rattle.h265.specs.ScalingFactor.ScalingList.{listed};
ghost use Rattle.scaling_values.specs.Factor.{WholeList};
ghost use Rattle.scaling_values.specs.Given.{list_of, entries_of};

use crate::ScalingList;

// The position in the list of an index of a block of size 2^log2n, where an entry stands for several indices.
fn repeated_position(index: usize, log2n: u32) -> usize
    requires { (3 ≤ log2n) × (log2n ≤ 5) × (index < 1024) }
    ensures { result ≡ index / 2 ^ log2n / 2 ^ (log2n - 3) * 8 + index % 2 ^ log2n / 2 ^ (log2n - 3) }
{
    let repeats = log2n - 3;
    let row = index >> log2n;
    let column = index - (row << log2n);
    (row >> repeats) * 8 + (column >> repeats)
}

// m at an index of a block by a list's entries and its DC.
// Kept: `WholeList` is a clause, here and in the crates above: it is of a lent list and of a size, and a struct of both would be made behind each ladder and taken apart again.
// Kept: entries and DC stand apart here and in `scaling_coeff`, as the ported Rust and C give them.
// Kept: an arm for each size, by whose numbers the compiler has masks in place of shifts: with `n.ilog2()` one m takes a third longer.
pub fn listed_at(list: &[u8], dc: u8, n: usize, index: usize) -> u8
    requires whole_list { WholeList (length list.now) n }
    requires index_bound { index < n * n }
    ensures { result ≡ scaling_factor (listed list.now dc) n index }
{
    if n == 4 || n == 8 {
        return list[index];
    }
    if index == 0 {
        return dc;
    }
    if n == 16 {
        return list[repeated_position(index, 4)];
    }
    list[repeated_position(index, 5)]
}

// m at an index of a block.
pub fn factor_at(list: ScalingList, n: usize, index: usize) -> u8
    requires whole_list { WholeList (entries_of (list_of list)) n }
    requires index_bound { index < n * n }
    ensures { result ≡ scaling_factor (list_of list.entry) n index }
{
    match list {
        ScalingList::Flat => 16,
        ScalingList::Listed(entries, dc) => listed_at(entries, dc, n, index),
    }
}
