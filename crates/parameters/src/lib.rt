// The range of coefficients, QP' and the numbers by which a block is scaled. Refuses 1 and 2, in that order.
#![tactic(auto)]

ghost use Rattle.std.specs.Prelude.{◌≡◌, ◌≤◌, T, pos, nat_abs};
ghost use Rattle.h265.specs.Range.{is_size, log2_size};
ghost use Rattle.h265.specs.Quantization.{qp_bd_offset, clip_qp_prime, qp_prime, scale_of_qp};
ghost use Rattle.refusal.specs.Outcome.{outcome};
ghost use Rattle.parameters.specs.Answers.{no_qp_prime, no_dequant, no_transform_skip};
ghost use Rattle.parameters.specs.Parameters.{max_log2_transform_dynamic_range, qp_bd_offset_of, qp_prime_of, dequant_of, dequant_params, ts_add, transform_skip_of, transform_skip_params, KnownSize};

use refusal::{Precision, Refusal};

// A quantization parameter, and the same with the depth's offset: code that scales takes the second.
#[derive(Clone, Copy, Debug, PartialEq, Eq)]
pub struct Qp(pub i32);

#[derive(Clone, Copy, Debug, PartialEq, Eq)]
pub struct QpPrime(pub i32);

#[derive(Clone, Copy)]
pub struct DequantParams {
    pub factor: i64,
    pub add: i64,
    pub shift: u32,
    pub clip_min: i64,
    pub clip_max: i64,
}

#[derive(Clone, Copy)]
pub struct TransformSkipParams {
    pub dequant: DequantParams,
    pub tr_add: i32,
    pub tr_shift: i32,
}

const LEVEL_SCALE: [i64; 6] = [40, 45, 51, 57, 64, 72];

// log2 of a size.
fn log2_of_size(n: usize) -> u32
    requires { T (is_size n) }
    ensures { result ≡ log2_size n }
{
    n.ilog2()
}

// What QP' is above QP: 6 for each bit of depth above 8.
// Kept: each entry point tests the depth and makes one call behind the test; a type for a depth that passed would be opened again at once.
#[tactic(auto, unfolding(h265::specs::Quantization::qp_bd_offset))]
fn offset_of(bit_depth: u8) -> u32
    requires { (8 ≤ bit_depth) × (bit_depth ≤ 16) }
    ensures { result ≡ qp_bd_offset bit_depth }
{
    (6 * (bit_depth - 8)) as u32
}

// QP with the offset, limited: before the sum, which could wrap.
fn qp_prime_of(qp: i32, bit_depth: u8) -> i32
    requires { (8 ≤ bit_depth) × (bit_depth ≤ 16) }
    ensures { result ≡ qp_prime bit_depth qp }
{
    let offset = offset_of(bit_depth) as i32;
    qp.clamp(-offset, 51) + offset
}

// QP' limited, as an unsigned number.
#[tactic(auto, using(crate::proofs::ParametersLaws::offset_small))]
fn limited_qp(qp_prime: i32, bit_depth: u8) -> u32
    requires { (8 ≤ bit_depth) × (bit_depth ≤ 16) }
    ensures { result ≡ nat_abs (clip_qp_prime bit_depth qp_prime) }
{
    let top = 51 + offset_of(bit_depth);
    qp_prime.clamp(0, top as i32) as u32
}

// level_scale[QP' mod 6] × 2^(QP' div 6), for a limited QP'.
fn scale_of_qp(qp: u32) -> i64
    requires { qp ≤ 99 }
    ensures { result ≡ pos (scale_of_qp qp) }
{
    let k = (qp % 6) as usize;
    LEVEL_SCALE[k] * integers::pow2(qp / 6)
}

// The numbers by which a block is scaled, by log2 of its size.
// Kept: `KnownSize` is what the tests of two entry points give; a type for it would be opened again at once.
fn params_of(log2n: u32, qp_prime: i32, precision: Precision) -> DequantParams
    requires { KnownSize log2n precision.bit_depth }
    ensures { result ≡ dequant_of log2n qp_prime precision.bit_depth precision.extended }
{
    let range = coefficients::transform_range(precision);
    let shift = (precision.bit_depth as u32) + log2n + 10 - range;
    let half = integers::pow2(shift - 1);
    let end = integers::pow2(range);
    DequantParams {
        factor: 16 * scale_of_qp(limited_qp(qp_prime, precision.bit_depth)),
        add: half,
        shift,
        clip_min: -end,
        clip_max: end - 1,
    }
}

// 2^(t-1) where t > 0, else 0.
// Kept: `(1 << t.max(0)) >> 1` is the same in one line, and says less plainly that it is half of 2^t, and nothing where t is no shift to the right.
fn skip_add(t: i32) -> i32
    requires { nat_abs t ≤ 30 }
    ensures { result ≡ ts_add t }
{
    if 0 < t {
        return 1i32 << ((t - 1) as u32);
    }
    0
}

// What transform skip needs besides.
fn skip_params_of(log2n: u32, qp_prime: i32, precision: Precision) -> TransformSkipParams
    requires { KnownSize log2n precision.bit_depth }
    ensures { result ≡ transform_skip_of log2n qp_prime precision.bit_depth precision.extended }
{
    let dequant = params_of(log2n, qp_prime, precision);
    let range = coefficients::transform_range(precision);
    let tr_shift = (range as i32) - (((precision.bit_depth as u32) + log2n) as i32);
    TransformSkipParams {
        dequant,
        tr_add: skip_add(tr_shift),
        tr_shift,
    }
}

// R: coefficients lie in -2^R .. 2^R - 1.
#[tactic(auto, unfolding(crate::specs::Parameters::max_log2_transform_dynamic_range))]
pub fn max_log2_transform_dynamic_range(precision: Precision) -> Result<u32, Refusal>
    ensures { outcome 0 result ≡ max_log2_transform_dynamic_range precision.bit_depth precision.extended }
{
    refusal::check_depth(precision.bit_depth)?;
    Ok(coefficients::transform_range(precision))
}

// What QP' is above QP.
#[tactic(auto, unfolding(crate::specs::Parameters::qp_bd_offset_of))]
pub fn qp_bd_offset(bit_depth: u8) -> Result<u32, Refusal>
    ensures { outcome 0 result ≡ qp_bd_offset_of bit_depth }
{
    refusal::check_depth(bit_depth)?;
    Ok(offset_of(bit_depth))
}

// QP' of any 32-bit QP; docs/DIFFERENCES.md says where the ported function overflows.
#[tactic(auto, unfolding(crate::specs::Parameters::qp_prime_of))]
pub fn qp_prime(qp: Qp, bit_depth: u8) -> Result<QpPrime, Refusal>
    ensures { outcome no_qp_prime result ≡ qp_prime_of qp.0 bit_depth }
{
    refusal::check_depth(bit_depth)?;
    Ok(QpPrime(qp_prime_of(qp.0, bit_depth)))
}

// The numbers by which a block of a size is scaled.
// Kept: size, QP' and precision stay apart, here and in the crates above, levels and output with them: the ported Rust and C give each apart, and rows 1 to 3 are of size and precision without QP'.
#[tactic(auto, using(crate::proofs::ParametersLaws::known_accepted), unfolding(crate::specs::Parameters::dequant_params))]
pub fn dequant_params(
    n: usize,
    qp_prime: QpPrime,
    precision: Precision,
) -> Result<DequantParams, Refusal>
    ensures { outcome no_dequant result ≡ dequant_params n qp_prime.0 precision.bit_depth precision.extended }
{
    refusal::check_size(n)?;
    refusal::check_depth(precision.bit_depth)?;
    Ok(params_of(log2_of_size(n), qp_prime.0, precision))
}

// The same, with the shift of transform skip and its rounding.
#[tactic(auto, using(crate::proofs::ParametersLaws::known_accepted), unfolding(crate::specs::Parameters::transform_skip_params))]
pub fn transform_skip_params(
    n: usize,
    qp_prime: QpPrime,
    precision: Precision,
) -> Result<TransformSkipParams, Refusal>
    ensures { outcome no_transform_skip result ≡ transform_skip_params n qp_prime.0 precision.bit_depth precision.extended }
{
    refusal::check_size(n)?;
    refusal::check_depth(precision.bit_depth)?;
    Ok(skip_params_of(log2_of_size(n), qp_prime.0, precision))
}
