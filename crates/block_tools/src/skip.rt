// Transform skip with rotation and accumulation: residuals as without them, and then the block tools where they stand.
ghost use Rattle.scaling_values.specs.Given.{list_of};
ghost use Rattle.refusal.specs.Condition.{bits32};
ghost use Rattle.scaling_blocks.specs.Blocks.{transform_skipped, CountWrites};
ghost use Rattle.block_tool_rules.specs.Residual.{skip_residual};

use block_tool_rules::Accumulate;
use block_tool_work::modify;
use parameters::QpPrime;
use refusal::{Precision, Refusal};
use scaling_values::ScalingList;

// The residuals of transform skip alone.
// Kept: by `scaling_wide`, whose calls have a block's numbers inside; the one that both inline has them in calls where it is inlined once more, and a block of size 4 took 1.2 to 1.5 times as long.
#[inline(always)]
fn skip(
    levels: &[i32],
    n: usize,
    qp_prime: QpPrime,
    precision: Precision,
    list: ScalingList,
    out: &mut [i32],
) -> Result<u16, Refusal>
    ensures { CountWrites result out.new (transform_skipped bits32 (list_of list.entry) n qp_prime.0 precision.bit_depth precision.extended levels.now out.old) }
{
    match list {
        ScalingList::Flat => scaling_wide::dequantize_transform_skip_into_scalar_i32(
            levels, n, qp_prime, precision, out,
        ),
        ScalingList::Listed(entries, dc) => {
            scaling_wide::dequantize_transform_skip_scaled_into_scalar_i32(
                levels, n, qp_prime, precision, entries, dc, out,
            )
        }
    }
}

// Kept: rotation and accumulation stand apart, here and in the bypass, as C gives them; the refusals ask for rotation alone.
// The residuals of a block, and how many of its coefficients were limited. Inlined, since each export knows whether it has a list.
#[inline(always)]
#[tactic(auto, unfolding(block_tool_rules::specs::Residual::skip_residual))]
pub fn transform_skip_residual(
    levels: &[i32],
    n: usize,
    qp_prime: QpPrime,
    precision: Precision,
    list: ScalingList,
    rotate: bool,
    accumulate: Accumulate,
    out: &mut [i32],
) -> Result<u16, Refusal>
    ensures { CountWrites result out.new (skip_residual accumulate rotate (list_of list.entry) n qp_prime.0 precision.bit_depth precision.extended levels.now out.old) }
{
    refusal::check_size(n)?;
    refusal::check_depth(precision.bit_depth)?;
    refusal::check(
        refusal::rotation_refused(rotate, n),
        Refusal::RotationSizeInvalid,
    )?;
    let limited = skip(levels, n, qp_prime, precision, list, out)?;
    modify::modify_block(n, rotate, accumulate, out);
    Ok(limited)
}
