// Blocks scaled by the list and DC of a number: the library's functions with a list, on the entries where they stand in the table. Each answers with the
// library's count of limited coefficients.
#![tactic(auto)]

ghost use Rattle.std.specs.Prelude.{◌≡◌, map};
ghost use Rattle.scaling_blocks.specs.Blocks.{CountWrites};
ghost use Rattle.list_places.specs.Table.{stream_of, short};
ghost use Rattle.list_blocks.specs.Scale.{block, given, list_answer, scale_answer};
ghost use Rattle.list_blocks.specs.Scale.Work.{coefficients, residuals};

use parameters::QpPrime;
use refusal::{Precision, Refusal};
use scaling_blocks::residual::Residual;
use scaling_blocks::{blocks, refuse};
use scaling_values::ScalingList;

// The list of a number for a block, unless the call is refused. A place has 64 entries, so row 5 never applies.
fn block_list<'a, R: Residual>(
    table: &'a [u8],
    stream: usize,
    number: usize,
    n: usize,
    precision: Precision,
    levels: usize,
    places: usize,
) -> Result<ScalingList<'a>, Refusal>
    ensures { given result ≡ list_answer R.NARROW n precision.bit_depth precision.extended levels places (short table.now) stream (stream_of table.now stream) number }
{
    refuse::block_refused(R::NARROW, n, precision, 64, levels, places)?;
    list_places::number_refused(table, stream, number)?;
    Ok(list_places::scaling_list(table, stream, number))
}

// Kept: two functions, for coefficients and for residuals, as C has them; what is alike is `block_list`.
// The coefficients of a block with the list of a number.
pub fn dequantize_by_number<R: Residual>(
    table: &[u8],
    stream: usize,
    number: usize,
    levels: &[i32],
    n: usize,
    qp_prime: QpPrime,
    precision: Precision,
    out: &mut [R],
) -> Result<u16, Refusal>
    ensures { CountWrites result (map R.reads out.new) (scale_answer (short table.now) stream (stream_of table.now stream) number (block coefficients R.NARROW n qp_prime.0 precision.bit_depth precision.extended levels.now) (map R.reads out.old)) }
{
    let list = block_list::<R>(table, stream, number, n, precision, levels.len(), out.len())?;
    blocks::dequantize(levels, n, qp_prime, precision, list, out)
}

// The residuals of a block with the list of a number.
pub fn transform_skip_by_number<R: Residual>(
    table: &[u8],
    stream: usize,
    number: usize,
    levels: &[i32],
    n: usize,
    qp_prime: QpPrime,
    precision: Precision,
    out: &mut [R],
) -> Result<u16, Refusal>
    ensures { CountWrites result (map R.reads out.new) (scale_answer (short table.now) stream (stream_of table.now stream) number (block residuals R.NARROW n qp_prime.0 precision.bit_depth precision.extended levels.now) (map R.reads out.old)) }
{
    let list = block_list::<R>(table, stream, number, n, precision, levels.len(), out.len())?;
    blocks::transform_skip(levels, n, qp_prime, precision, list, out)
}
