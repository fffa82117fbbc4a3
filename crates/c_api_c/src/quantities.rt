// The range of coefficients, QP', the numbers by which a block is scaled, and how far a residual may be from the exact product.
// Kept: C hands over depth and flag apart, and the kind as a flag.
ghost use Rattle.std.specs.Prelude.{◌≡◌};
ghost use Rattle.parameters.specs.Parameters.{max_log2_transform_dynamic_range, qp_bd_offset_of, qp_prime_of, dequant_params, transform_skip_params};
ghost use Rattle.rounding.specs.Bound.{rounding_bound_of};
ghost use Rattle.c_api.specs.Answers.{of_number, of_qp_prime, of_dequant, of_transform_skip};
ghost use Rattle.c_api.specs.Edits.{kind_of};

use c_api::{DequantAnswered, NumberAnswered, SignedAnswered, TransformSkipAnswered};

// R: coefficients lie in -2^R .. 2^R - 1.
#[unsafe(no_mangle)]
pub extern "C" fn residual_max_log2_transform_dynamic_range(
    bit_depth: u8,
    extended_precision: bool,
) -> NumberAnswered
    ensures { of_number result ≡ max_log2_transform_dynamic_range bit_depth extended_precision }
{
    c_api::residual_max_log2_transform_dynamic_range(bit_depth, extended_precision)
}

// What QP' is above QP.
#[unsafe(no_mangle)]
pub extern "C" fn residual_qp_bd_offset(bit_depth: u8) -> NumberAnswered
    ensures { of_number result ≡ qp_bd_offset_of bit_depth }
{
    c_api::residual_qp_bd_offset(bit_depth)
}

// QP' of any 32-bit QP.
#[unsafe(no_mangle)]
pub extern "C" fn residual_qp_prime(qp: i32, bit_depth: u8) -> SignedAnswered
    ensures { of_qp_prime result ≡ qp_prime_of qp bit_depth }
{
    c_api::residual_qp_prime(qp, bit_depth)
}

// The numbers by which a block of a size is scaled.
#[unsafe(no_mangle)]
pub extern "C" fn residual_dequant_params(
    n: usize,
    qp_prime: i32,
    bit_depth: u8,
    extended_precision: bool,
) -> DequantAnswered
    ensures { of_dequant result ≡ dequant_params n qp_prime bit_depth extended_precision }
{
    c_api::residual_dequant_params(n, qp_prime, bit_depth, extended_precision)
}

// The same, with the shift of transform skip and its rounding.
#[unsafe(no_mangle)]
pub extern "C" fn residual_transform_skip_params(
    n: usize,
    qp_prime: i32,
    bit_depth: u8,
    extended_precision: bool,
) -> TransformSkipAnswered
    ensures { of_transform_skip result ≡ transform_skip_params n qp_prime bit_depth extended_precision }
{
    c_api::residual_transform_skip_params(n, qp_prime, bit_depth, extended_precision)
}

// By how much 2^(7 + s2) times a residual may differ from the exact product, where no stage-one value was limited.
#[unsafe(no_mangle)]
pub extern "C" fn residual_rounding_bound(
    dst: bool,
    n: usize,
    bit_depth: u8,
    extended_precision: bool,
) -> NumberAnswered
    ensures { of_number result ≡ rounding_bound_of (kind_of dst) n bit_depth extended_precision }
{
    c_api::residual_rounding_bound(dst, n, bit_depth, extended_precision)
}
