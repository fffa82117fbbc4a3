// One level of a block.
ghost use Rattle.std.specs.Prelude.{◌≡◌};
ghost use Rattle.refusal.specs.Outcome.{outcome};
ghost use Rattle.scaling.specs.Level.{scaled_level};
ghost use Rattle.scaling.specs.Answers.{no_level};

use parameters::QpPrime;
use refusal::{Precision, Refusal};
use scaling_values::{ScaledLevel, level};

// One level of a block, for every level, m and QP'.
pub fn scale_level(
    level: i32,
    m: u8,
    n: usize,
    qp_prime: QpPrime,
    precision: Precision,
) -> Result<ScaledLevel, Refusal>
    ensures { outcome no_level result ≡ scaled_level level m n qp_prime.0 precision.bit_depth precision.extended }
{
    let by = parameters::dequant_params(n, qp_prime, precision)?;
    Ok(level::scaled_listed(level, m, by))
}
