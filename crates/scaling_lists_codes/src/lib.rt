// The numbers in the syntax of scaling lists, H.265 clause 7.3.4: each code with its range, and where it is refused the offset at which it begins.
#![tactic(auto)]

ghost use Rattle.std.specs.Prelude.{◌≡◌, false, ◌+◌, ◌/◌, ◌≤◌, IfOk};
ghost use Rattle.bits.specs.ExpGolomb.{signed_number};
ghost use Rattle.scaling_lists_codes.specs.Syntax.{outside_of, added, number_at, delta_of, delta_code, dc_of, dc_code, matrix_step, reference_of, reference_code, positions};

use bits::CodeError;
use refusal::Refusal;

// ue(v) and the offset behind it; a code that is too long is refused as `too_long`.
fn number_at(bytes: &[u8], at: usize, too_long: Refusal) -> Result<(u64, usize), Refusal>
    requires { at ≤ 4611686018427387904 }
    ensures { (result ≡ number_at bytes.now at too_long) × IfOk result (λ r. r.1 ≤ at + 65) }
{
    match bits::unsigned_code(bytes, at) {
        Ok(code) => Ok(code),
        Err(CodeError::TooLong) => Err(too_long),
        Err(CodeError::Ended) => Err(Refusal::BitsEnded(at)),
    }
}

// Kept: se(v) is compared and added by the half of its number, here and below: an i64 does not hold the value of every u64 number, and would ask for a bound.
// Whether se(v) of a number is below -low or above high.
fn outside_of(low: u64, high: u64, number: u64) -> bool
    ensures { result ≡ outside_of low high (signed_number number) }
{
    let half = number / 2;
    if number % 2 == 1 {
        high < half + 1
    } else {
        low < half
    }
}

// n + se(v) of a number; the sum is not below 0.
fn sum_of(n: u64, number: u64) -> u64
    requires { (n ≤ 511) × (outside_of n 255 (signed_number number) ≡ false) }
    ensures { result ≡ added n (signed_number number) }
{
    let half = number / 2;
    if number % 2 == 1 {
        n + (half + 1)
    } else {
        n - half
    }
}

// The entry after `next`, by the number of a delta's code.
fn delta_of(number: u64, behind: usize, next: u8, at: usize) -> Result<(u8, usize), Refusal>
    ensures { (result ≡ delta_of next at number behind) × IfOk result (λ r. r.1 ≡ behind) }
{
    refusal::check(outside_of(128, 127, number), Refusal::ListValueInvalid(at))?;
    let entry = sum_of(next as u64 + 256, number) % 256;
    refusal::check(entry == 0, Refusal::ListValueInvalid(at))?;
    Ok((entry as u8, behind))
}

// scaling_list_delta_coef: the entry after `next`, and the offset behind its code.
pub fn delta_code(bytes: &[u8], next: u8, at: usize) -> Result<(u8, usize), Refusal>
    requires { at ≤ 4611686018427387904 }
    ensures { (result ≡ delta_code bytes.now next at) × IfOk result (λ r. r.1 ≤ at + 65) }
{
    let (number, behind) = number_at(bytes, at, Refusal::ListValueInvalid(at))?;
    delta_of(number, behind, next, at)
}

// DC, by the number of its code.
fn dc_of(number: u64, behind: usize, at: usize) -> Result<(u8, usize), Refusal>
    ensures { (result ≡ dc_of at number behind) × IfOk result (λ r. r.1 ≡ behind) }
{
    refusal::check(outside_of(7, 247, number), Refusal::ListValueInvalid(at))?;
    Ok((sum_of(8, number) as u8, behind))
}

// scaling_list_dc_coef_minus8: DC, and the offset behind its code.
pub fn dc_code(bytes: &[u8], at: usize) -> Result<(u8, usize), Refusal>
    requires { at ≤ 4611686018427387904 }
    ensures { (result ≡ dc_code bytes.now at) × IfOk result (λ r. r.1 ≤ at + 65) }
{
    let (number, behind) = number_at(bytes, at, Refusal::ListValueInvalid(at))?;
    dc_of(number, behind, at)
}

// How far apart the matrices of a size are that have a list.
pub fn matrix_step(size_id: usize) -> usize
    ensures { (result ≡ matrix_step size_id) × (1 ≤ result) × (result ≤ 3) }
{
    if size_id == 3 { 3 } else { 1 }
}

// Where the entries of a size go, in coding order.
#[tactic(auto, unfolding(crate::specs::Syntax::positions))]
pub fn positions(size_id: usize) -> &'static [u8]
    ensures { result.now ≡ positions size_id }
{
    if size_id == 0 {
        return diagonal::up_right_4();
    }
    diagonal::up_right_8()
}

// The reference, by the number of its code; `most` is the farthest that there is.
fn reference_of(
    number: u64,
    behind: usize,
    size_id: usize,
    matrix_id: usize,
    at: usize,
) -> Result<(u8, usize), Refusal>
    requires { matrix_id ≤ 5 }
    ensures { (result ≡ reference_of size_id matrix_id at number behind) × IfOk result (λ r. (r.1 ≡ behind) × (r.0 ≤ matrix_id / matrix_step size_id)) }
{
    let most = matrix_id / matrix_step(size_id);
    refusal::check((most as u64) < number, Refusal::ReferenceMissing(at))?;
    Ok((number as u8, behind))
}

// scaling_list_pred_matrix_id_delta, and the offset behind its code.
pub fn reference_code(
    bytes: &[u8],
    size_id: usize,
    matrix_id: usize,
    at: usize,
) -> Result<(u8, usize), Refusal>
    requires { (matrix_id ≤ 5) × (at ≤ 4611686018427387904) }
    ensures { (result ≡ reference_code bytes.now size_id matrix_id at) × IfOk result (λ r. (r.1 ≤ at + 65) × (r.0 ≤ matrix_id / matrix_step size_id)) }
{
    let (number, behind) = number_at(bytes, at, Refusal::ReferenceMissing(at))?;
    reference_of(number, behind, size_id, matrix_id, at)
}
