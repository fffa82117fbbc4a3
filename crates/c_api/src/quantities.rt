// The range of coefficients, QP', the numbers by which a block is scaled, and how far a residual may be from the exact product.
// Kept: C hands over depth and flag apart, and the kind as a flag.
ghost use Rattle.std.specs.Prelude.{◌≡◌};
ghost use Rattle.parameters.specs.Parameters.{max_log2_transform_dynamic_range, qp_bd_offset_of, qp_prime_of, dequant_params, transform_skip_params};
ghost use Rattle.rounding.specs.Bound.{rounding_bound_of};
ghost use Rattle.c_api.specs.Answers.{of_number, of_qp_prime, of_dequant, of_transform_skip};
ghost use Rattle.c_api.specs.Edits.{kind_of};

use crate::{DequantAnswered, NumberAnswered, SignedAnswered, TransformSkipAnswered, edits};
use parameters::{Qp, QpPrime};
use refusal::Precision;

// R: coefficients lie in -2^R .. 2^R - 1.
pub fn residual_max_log2_transform_dynamic_range(
    bit_depth: u8,
    extended_precision: bool,
) -> NumberAnswered
    ensures { of_number result ≡ max_log2_transform_dynamic_range bit_depth extended_precision }
{
    let precision = Precision::new(bit_depth, extended_precision);
    parameters::max_log2_transform_dynamic_range(precision).into()
}

// What QP' is above QP.
pub fn residual_qp_bd_offset(bit_depth: u8) -> NumberAnswered
    ensures { of_number result ≡ qp_bd_offset_of bit_depth }
{
    parameters::qp_bd_offset(bit_depth).into()
}

// QP' of any 32-bit QP.
pub fn residual_qp_prime(qp: i32, bit_depth: u8) -> SignedAnswered
    ensures { of_qp_prime result ≡ qp_prime_of qp bit_depth }
{
    parameters::qp_prime(Qp(qp), bit_depth).into()
}

// The numbers by which a block of a size is scaled.
pub fn residual_dequant_params(
    n: usize,
    qp_prime: i32,
    bit_depth: u8,
    extended_precision: bool,
) -> DequantAnswered
    ensures { of_dequant result ≡ dequant_params n qp_prime bit_depth extended_precision }
{
    let precision = Precision::new(bit_depth, extended_precision);
    let qp = QpPrime(qp_prime);
    parameters::dequant_params(n, qp, precision).into()
}

// The same, with the shift of transform skip and its rounding.
pub fn residual_transform_skip_params(
    n: usize,
    qp_prime: i32,
    bit_depth: u8,
    extended_precision: bool,
) -> TransformSkipAnswered
    ensures { of_transform_skip result ≡ transform_skip_params n qp_prime bit_depth extended_precision }
{
    let precision = Precision::new(bit_depth, extended_precision);
    let qp = QpPrime(qp_prime);
    parameters::transform_skip_params(n, qp, precision).into()
}

// By how much 2^(7 + s2) times a residual may differ from the exact product, where no stage-one value was limited.
pub fn residual_rounding_bound(
    dst: bool,
    n: usize,
    bit_depth: u8,
    extended_precision: bool,
) -> NumberAnswered
    ensures { of_number result ≡ rounding_bound_of (kind_of dst) n bit_depth extended_precision }
{
    let precision = Precision::new(bit_depth, extended_precision);
    let kind = edits::kind_of(dst);
    rounding::rounding_bound(kind, n, precision).into()
}
