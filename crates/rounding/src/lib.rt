// How far a residual may be from the exact product of its coefficients. Refuses 1, 2 and 4, in that order.
#![tactic(auto)]

ghost use Rattle.std.specs.Prelude.{◌≡◌, ◌≤◌, T};
ghost use Rattle.h265.specs.Range.{is_size};
ghost use Rattle.refusal.specs.Outcome.{outcome};
ghost use Rattle.rounding.specs.Exact.{dct_sum, entry_sum, rounding_bound};
ghost use Rattle.rounding.specs.Bound.{rounding_bound_of};

use refusal::{Precision, Refusal};
use transform_1d::Kind;

// The largest sum of absolute entries over one output of the n-point DCT.
// Kept: a size as a number, here and below, as in refusal.
fn dct_sum(n: usize) -> u32
    requires { T (is_size n) }
    ensures { result ≡ dct_sum n }
{
    match n {
        4 => 247,
        8 => 479,
        16 => 940,
        _ => 1862,
    }
}

fn entry_sum(kind: Kind, n: usize) -> u32
    requires { T (is_size n) }
    ensures { result ≡ entry_sum kind n }
{
    match kind {
        Kind::Dct => dct_sum(n),
        Kind::Dst => 242,
    }
}

// Kept: kind, size and precision apart, here and below: refusals, range and sums each take some of them, and would take a struct apart.
fn bound_of(kind: Kind, n: usize, precision: Precision) -> u32
    requires { T (is_size n) × (8 ≤ precision.bit_depth) × (precision.bit_depth ≤ 16) }
    ensures { result ≡ rounding_bound kind n precision.bit_depth precision.extended }
{
    let sum = entry_sum(kind, n);
    let range = coefficients::transform_range(precision);
    let shift = transform_1d::stage_two_shift(precision.bit_depth, range);
    64 * sum + (1u32 << (6 + shift))
}

// By how much 2^(7 + s2) times a residual may differ from the exact product, where no stage-one value was limited.
#[tactic(auto, unfolding(crate::specs::Bound::rounding_bound_of))]
pub fn rounding_bound(kind: Kind, n: usize, precision: Precision) -> Result<u32, Refusal>
    ensures { outcome 0 result ≡ rounding_bound_of kind n precision.bit_depth precision.extended }
{
    refusal::check_size(n)?;
    refusal::check_depth(precision.bit_depth)?;
    refusal::check(transform_1d::dst_refused(kind, n), Refusal::DstSizeInvalid)?;
    Ok(bound_of(kind, n, precision))
}
