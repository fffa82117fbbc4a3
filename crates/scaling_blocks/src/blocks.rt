// Whole blocks at either width of the output: their coefficients or their residuals, by a list or without one, and how many coefficients were limited.
ghost use Rattle.std.specs.Prelude.{◌≡◌, ◌*◌, length, map};
ghost use Rattle.h265.specs.Scaling.{scaled_at};
ghost use Rattle.h265.specs.Limited.{limited_at};
ghost use Rattle.scaling_values.specs.Given.{list_of, entries_of};
ghost use Rattle.scaling_values.specs.Work.{Counted};
ghost use Rattle.scaling_blocks.specs.Blocks.{dequantized, transform_skipped, not_refused, block_answer, CountWrites};

use crate::residual::Residual;
use crate::{each, refuse};
use parameters::QpPrime;
use refusal::{Precision, Refusal};
use scaling_values::ScalingList;

// The coefficients of a block.
// Kept: levels and output apart, here and in `each`, and `Room` a clause: a struct with the lent output would have to promise that it stays the same one (its ghost_name).
#[inline(always)]
pub fn dequantize<R: Residual>(
    levels: &[i32],
    n: usize,
    qp_prime: QpPrime,
    precision: Precision,
    list: ScalingList,
    out: &mut [R],
) -> Result<u16, Refusal>
    ensures { CountWrites result (map R.reads out.new) (dequantized R.NARROW (list_of list.entry) n qp_prime.0 precision.bit_depth precision.extended levels.now (map R.reads out.old)) }
{
    refuse::block_refused(R::NARROW, n, precision, list.len(), levels.len(), out.len())?;
    Ok(scale(levels, n, qp_prime, precision, list, out))
}

// The residuals of a block.
#[inline(always)]
pub fn transform_skip<R: Residual>(
    levels: &[i32],
    n: usize,
    qp_prime: QpPrime,
    precision: Precision,
    list: ScalingList,
    out: &mut [R],
) -> Result<u16, Refusal>
    ensures { CountWrites result (map R.reads out.new) (transform_skipped R.NARROW (list_of list.entry) n qp_prime.0 precision.bit_depth precision.extended levels.now (map R.reads out.old)) }
{
    refuse::block_refused(R::NARROW, n, precision, list.len(), levels.len(), out.len())?;
    let limited = scale(levels, n, qp_prime, precision, list, out);
    let by = parameters::transform_skip_params(n, qp_prime, precision).unwrap();
    each::skip_block(n * n, by, out);
    Ok(limited)
}

// The coefficients of a block that is not refused. Inlined, as its two callers are, since each call of these knows whether it has a list.
#[inline(always)]
fn scale<R: Residual>(
    levels: &[i32],
    n: usize,
    qp_prime: QpPrime,
    precision: Precision,
    list: ScalingList,
    out: &mut [R],
) -> u16
    requires { not_refused ≡ block_answer R.NARROW n precision.bit_depth precision.extended (entries_of (list_of list)) (length levels.now) (length out.old) }
    ensures { Counted (scaled_at (list_of list.entry) n precision.bit_depth precision.extended qp_prime.0 levels.now) (limited_at (list_of list.entry) n precision.bit_depth precision.extended qp_prime.0 levels.now) (n * n) (map R.reads out.old) (map R.reads out.new) result }
{
    match list {
        ScalingList::Flat => each::flat_block(levels, n, qp_prime, precision, out),
        ScalingList::Listed(entries, dc) => {
            each::listed_block(levels, n, qp_prime, precision, entries, dc, out)
        }
    }
}
