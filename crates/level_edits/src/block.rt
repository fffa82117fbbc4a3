// The levels of a block, below the refusals: its coefficients, their edits, and the levels that scale to those.
ghost use Rattle.std.specs.Prelude.{◌≡◌, ◌*◌, ◌<◌, ◌≤◌, pos, length, get_or};
ghost use Rattle.integers.specs.Lists.{overwrite};
ghost use Rattle.scaling_values.specs.Factor.{WholeList};
ghost use Rattle.scaling_values.specs.Given.{list_of, entries_of};
ghost use Rattle.level_search.specs.Work.{scaling_by, Invertible};
ghost use Rattle.level_edits.specs.Work.{least_scaling, most_scaling, least_level_by, most_level_by, LevelsNeeds};

use crate::places;
use parameters::DequantParams;
use refusal::Precision;
use scaling_values::ScalingList;
use scaling_values::factor::factor_at;
use transform_1d::Kind;

// The coefficients of the levels.
// Kept: Invertible is a clause, here and below, as in level_search, and the range a number with its bound, as in coefficients.
// Kept: tables of the largest size with n beside them, here and below: there is no heap, and n stands once for all tables of a block.
fn scale(levels: &[i32], n: usize, by: DequantParams, list: ScalingList, out: &mut [i32; 1024])
    requires { Invertible by × WholeList (entries_of (list_of list)) n × (n * n ≤ length levels.now) × (length out.old ≡ 1024) }
    ensures { out.new ≡ overwrite (n * n) (λ i. scaling_by by (list_of list.entry) n i (get_or levels.now i (pos 0))) out.old }
{
    let count = n * n;
    for i in 0..count {
        let x = places::scaled_value(levels[i], factor_at(list, n, i), by);
        out[i] = x;
    }
}

// For each index the levels that scale to low .. high there.
fn spread(
    low: &[i32; 1024],
    high: &[i32; 1024],
    n: usize,
    range: u32,
    by: DequantParams,
    list: ScalingList,
    least: &mut [i32],
    most: &mut [i32],
)
    requires { Invertible by × WholeList (entries_of (list_of list)) n × (range ≤ 22) × (n * n ≤ length least.old) × (n * n ≤ length most.old) }
    ensures { (least.new ≡ overwrite (n * n) (λ i. least_scaling (scaling_by by (list_of list.entry) n i) range (get_or low.now i (pos 0)) (get_or high.now i (pos 0))) least.old) × (most.new ≡ overwrite (n * n) (λ i. most_scaling (scaling_by by (list_of list.entry) n i) range (get_or low.now i (pos 0)) (get_or high.now i (pos 0))) most.old) }
{
    let count = n * n;
    for i in 0..count {
        let m = factor_at(list, n, i);
        let span = places::level_span(m, by, range, low[i], high[i]);
        let first = edit_blocks::least_of(range, span);
        let last = edit_blocks::most_of(range, span);
        least[i] = first;
        most[i] = last;
    }
}

// The least and the most level at every index.
pub(crate) fn find_block(
    kind: Kind,
    n: usize,
    precision: Precision,
    by: DequantParams,
    list: ScalingList,
    levels: &[i32],
    target: &[i32],
    wanted: &[u8],
    least: &mut [i32],
    most: &mut [i32],
)
    requires { LevelsNeeds by kind n precision.bit_depth precision.extended (entries_of (list_of list)) (length levels.now) (length target.now) (length wanted.now) (length least.old) (length most.old) }
    ensures { (least.new ≡ overwrite (n * n) (least_level_by by (list_of list.entry) kind n precision.bit_depth precision.extended levels.now target.now wanted.now) least.old) × (most.new ≡ overwrite (n * n) (most_level_by by (list_of list.entry) kind n precision.bit_depth precision.extended levels.now target.now wanted.now) most.old) }
{
    let mut coeff = [0i32; 1024];
    let mut low = [0i32; 1024];
    let mut high = [0i32; 1024];
    scale(levels, n, by, list, &mut coeff);
    let cells = n * n;
    edit_blocks::find(
        kind,
        n,
        precision,
        &coeff[..cells],
        target,
        wanted,
        &mut low[..],
        &mut high[..],
    );
    let range = coefficients::transform_range(precision);
    spread(&low, &high, n, range, by, list, least, most);
}
