// The loops over a block, for either width of the output.
ghost use Rattle.std.specs.Prelude.{◌≡◌, ◌*◌, ◌≤◌, ℕ, ℤ, true, length, get_or, map, pos, ◌≤ℤ◌};
ghost use Rattle.std.proofs.Common.{SFits};
ghost use Rattle.integers.specs.Lists.{overwrite};
ghost use Rattle.h265.specs.ScalingFactor.{scaling_factor};
ghost use Rattle.h265.specs.ScalingFactor.ScalingList.{flat, listed};
ghost use Rattle.h265.specs.Scaling.{scaled_at};
ghost use Rattle.h265.specs.Limited.{limited_at};
ghost use Rattle.scaling_values.specs.Factor.{WholeList};
ghost use Rattle.scaling_values.specs.Flat.{short_at, short_limited_at, Short, ShortFits};
ghost use Rattle.scaling_values.specs.Skip.{Skippable};
ghost use Rattle.scaling_values.specs.Work.{listed_at, listed_limited_at, residual_at, Counted, Room, Coefficients};
ghost use Rattle.scaling_blocks.specs.Blocks.{output_width, not_refused, block_answer};
ghost use Rattle.scaling_blocks.specs.Each.{by_entry, Scalable};

use crate::entry::ByEntry;
use crate::residual::Residual;
use crate::spread;
use parameters::{DequantParams, QpPrime, TransformSkipParams};
use refusal::Precision;
use scaling_values::{FlatParams, flat, listed, long, skip};

// The coefficients of a block without a list, and how many were limited.
// Kept: a loop of its own beside `scale_entries`: `FlatParams` takes no m, so that one loop for both would take a closure of index and level; with its clauses it is longer than this loop.
// Kept: the count beside the slices, here and below: `Counted` and `overwrite` say too what stands behind the block, which the caller would have to work out of a part of each slice.
fn scale_flat<R: Residual>(levels: &[i32], count: usize, by: FlatParams, out: &mut [R]) -> u16
    requires short { Short by }
    requires room { Room count (length levels.now) (length out.old) }
    requires count_bound { count ≤ 1024 }
    requires fits { ShortFits (output_width R.NARROW) by }
    ensures { Counted (short_at by levels.now) (short_limited_at by levels.now) count (map R.reads out.old) (map R.reads out.new) result }
{
    let mut limited: u32 = 0;
    for i in 0..count {
        let scaled = flat::scaled_flat(levels[i], by);
        out[i] = R::of(scaled.value);
        limited += scaled.limited;
    }
    limited as u16
}

// The same with a list whose entries stand at the indices themselves.
fn scale_entries<P: ByEntry, R: Residual>(
    levels: &[i32],
    count: usize,
    by: P,
    entries: &[u8],
    out: &mut [R],
) -> u16
    requires ready { P.ready by }
    requires fits { (m : ℕ) (level : ℤ) → SFits (output_width R.NARROW) (P.scales by m level) }
    requires room { Room count (length levels.now) (length out.old) }
    requires count_in_bounds { count ≤ length entries.now }
    requires count_bound { count ≤ 1024 }
    ensures { Counted (by_entry (P.scales by) (λ i. get_or entries.now i 0) levels.now) (by_entry (P.limits by) (λ i. get_or entries.now i 0) levels.now) count (map R.reads out.old) (map R.reads out.new) result }
{
    let mut limited: u32 = 0;
    for i in 0..count {
        let scaled = by.scaled(levels[i], entries[i]);
        out[i] = R::of(scaled.value);
        limited += scaled.limited;
    }
    limited as u16
}

// The coefficients of a block with a list, and how many were limited. At sizes 4 and 8 the entry at an index is its m.
// Kept: entries and DC apart, here and below: `ScalingList` has the case of no list, which is behind the caller here, and a pair of its own would be taken apart by `spread` alone.
fn scale_by<P: ByEntry, R: Residual>(
    levels: &[i32],
    n: usize,
    by: P,
    list: &[u8],
    dc: u8,
    out: &mut [R],
) -> u16
    requires ready { P.ready by }
    requires fits { (m : ℕ) (level : ℤ) → SFits (output_width R.NARROW) (P.scales by m level) }
    requires room { Room (n * n) (length levels.now) (length out.old) }
    requires whole_list { WholeList (length list.now) n }
    ensures { Counted (by_entry (P.scales by) (scaling_factor (listed list.now dc) n) levels.now) (by_entry (P.limits by) (scaling_factor (listed list.now dc) n) levels.now) (n * n) (map R.reads out.old) (map R.reads out.new) result }
{
    if n <= 8 {
        return scale_entries(levels, n * n, by, list, out);
    }
    let mut entries = [0u8; 1024];
    spread::spread(list, n, dc, &mut entries);
    scale_entries(levels, n * n, by, &entries, out)
}

// The same by the numbers of the block's range: where R = 15 without the power of two.
fn scale_listed<R: Residual>(
    levels: &[i32],
    n: usize,
    by: DequantParams,
    list: &[u8],
    dc: u8,
    out: &mut [R],
) -> u16
    requires scalable { Scalable (output_width R.NARROW) by }
    requires room { Room (n * n) (length levels.now) (length out.old) }
    requires whole_list { WholeList (length list.now) n }
    ensures { Counted (listed_at by (listed list.now dc) n levels.now) (listed_limited_at by (listed list.now dc) n levels.now) (n * n) (map R.reads out.old) (map R.reads out.new) result }
{
    if by.clip_max == i16::MAX as i64 {
        return scale_by(levels, n, listed::listed_params(by), list, dc, out);
    }
    scale_by(levels, n, long::long_params(by), list, dc, out)
}

// A block without a list that is not refused.
#[inline(always)]
pub(crate) fn flat_block<R: Residual>(
    levels: &[i32],
    n: usize,
    qp_prime: QpPrime,
    precision: Precision,
    out: &mut [R],
) -> u16
    requires { not_refused ≡ block_answer R.NARROW n precision.bit_depth precision.extended 64 (length levels.now) (length out.old) }
    ensures { Counted (scaled_at flat n precision.bit_depth precision.extended qp_prime.0 levels.now) (limited_at flat n precision.bit_depth precision.extended qp_prime.0 levels.now) (n * n) (map R.reads out.old) (map R.reads out.new) result }
{
    let by = parameters::dequant_params(n, qp_prime, precision).unwrap();
    scale_flat(levels, n * n, flat::flat_params(by), out)
}

// A block with a list that is not refused. It works its numbers out beside the loops, so that they stay in registers.
// Kept: beside `flat_block`, each with `dequant_params` and the clause that no row applies: handed down in memory, the numbers of a block took 432 instructions at size 4 in place of 375 (docs/BENCHMARKS.md).
pub(crate) fn listed_block<R: Residual>(
    levels: &[i32],
    n: usize,
    qp_prime: QpPrime,
    precision: Precision,
    list: &[u8],
    dc: u8,
    out: &mut [R],
) -> u16
    requires { not_refused ≡ block_answer R.NARROW n precision.bit_depth precision.extended (length list.now) (length levels.now) (length out.old) }
    ensures { Counted (scaled_at (listed list.now dc) n precision.bit_depth precision.extended qp_prime.0 levels.now) (limited_at (listed list.now dc) n precision.bit_depth precision.extended qp_prime.0 levels.now) (n * n) (map R.reads out.old) (map R.reads out.new) result }
{
    let by = parameters::dequant_params(n, qp_prime, precision).unwrap();
    scale_listed(levels, n, by, list, dc, out)
}

// Coefficients turned into residuals, where they stand.
pub(crate) fn skip_block<R: Residual>(count: usize, by: TransformSkipParams, out: &mut [R])
    requires skippable { Skippable by }
    requires count_in_bounds { count ≤ length out.old }
    requires coefficients { Coefficients count (map R.reads out.old) }
    requires rounds { R.NARROW ≡ true → pos 1 ≤ℤ by.tr_shift }
    ensures { map R.reads out.new ≡ overwrite count (residual_at by.tr_shift (map R.reads out.old)) (map R.reads out.old) }
{
    for i in 0..count {
        out[i] = R::of(skip::skipped(out[i].value(), by.tr_add, by.tr_shift));
    }
}
