// The bypass: levels are the residual.
ghost use Rattle.block_tool_rules.specs.Residual.{bypass_residual, Writes};

use block_tool_rules::Accumulate;
use block_tool_work::{modify, refuse};
use refusal::{Precision, Refusal};

// The residuals of a block whose levels are its residuals.
#[tactic(auto, using(block_tool_work::proofs::ResidualLaws::bypass_refused))]
pub fn bypass_residual(
    levels: &[i32],
    n: usize,
    precision: Precision,
    rotate: bool,
    accumulate: Accumulate,
    out: &mut [i32],
) -> Result<(), Refusal>
    ensures { Writes result out.new (bypass_residual accumulate rotate n precision.bit_depth precision.extended levels.now out.old) }
{
    refuse::bypass_checked(levels, n, precision, rotate, out.len())?;
    block_tool_work::copy_levels(levels, n * n, out);
    modify::modify_block(n, rotate, accumulate, out);
    Ok(())
}
