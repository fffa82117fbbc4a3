// Scaling lists of two streams in one lent table.
// Kept: C has each function under a name of its own, by the width of its output, and hands over depth and flag, a list and its DC, and table, stream and number, apart.
ghost use Rattle.refusal.specs.Condition.{bits16, bits32};
ghost use Rattle.list_places.specs.Table.{stream_of, short};
ghost use Rattle.list_blocks.specs.Scale.{block, scale_answer};
ghost use Rattle.list_blocks.specs.Scale.Work.{coefficients, residuals};
ghost use Rattle.list_table.specs.Calls.{find_answer};
ghost use Rattle.c_api.specs.Blocks.{CountWrites};
ghost use Rattle.c_api.specs.Tables.{Stores, Drops, Finds};

use c_api::{Answered, CountAnswered, NumberAnswered, StoreAnswered};

// Stores a list and its DC under the lowest free number of a stream.
#[unsafe(no_mangle)]
pub extern "C" fn residual_store_list(
    table: &mut [u8],
    stream: usize,
    list: &[u8],
    dc: u8,
) -> StoreAnswered
    ensures { Stores result table.new table.old stream list.now dc }
{
    c_api::residual_store_list(table, stream, list, dc)
}

// Frees a number of a stream.
#[unsafe(no_mangle)]
pub extern "C" fn residual_drop_list(table: &mut [u8], stream: usize, number: usize) -> Answered
    ensures { Drops result table.new table.old stream number }
{
    c_api::residual_drop_list(table, stream, number)
}

// The list and the DC of a number.
#[unsafe(no_mangle)]
pub extern "C" fn residual_list_at(
    table: &[u8],
    stream: usize,
    number: usize,
    list_out: &mut [u8],
) -> NumberAnswered
    ensures { Finds result list_out.new (find_answer (short table.now) stream (stream_of table.now stream) number list_out.old) }
{
    c_api::residual_list_at(table, stream, number, list_out)
}

// The coefficients of a block with the list of a number, 32-bit.
#[unsafe(no_mangle)]
pub extern "C" fn residual_dequantize_by_number_i32(
    table: &[u8],
    stream: usize,
    number: usize,
    levels: &[i32],
    n: usize,
    qp_prime: i32,
    bit_depth: u8,
    extended_precision: bool,
    out: &mut [i32],
) -> CountAnswered
    ensures { CountWrites result out.new (scale_answer (short table.now) stream (stream_of table.now stream) number (block coefficients bits32 n qp_prime bit_depth extended_precision levels.now) out.old) }
{
    c_api::residual_dequantize_by_number_i32(
        table,
        stream,
        number,
        levels,
        n,
        qp_prime,
        bit_depth,
        extended_precision,
        out,
    )
}

// The coefficients of a block with the list of a number, 16-bit.
#[unsafe(no_mangle)]
pub extern "C" fn residual_dequantize_by_number_i16(
    table: &[u8],
    stream: usize,
    number: usize,
    levels: &[i32],
    n: usize,
    qp_prime: i32,
    bit_depth: u8,
    extended_precision: bool,
    out: &mut [i16],
) -> CountAnswered
    ensures { CountWrites result out.new (scale_answer (short table.now) stream (stream_of table.now stream) number (block coefficients bits16 n qp_prime bit_depth extended_precision levels.now) out.old) }
{
    c_api::residual_dequantize_by_number_i16(
        table,
        stream,
        number,
        levels,
        n,
        qp_prime,
        bit_depth,
        extended_precision,
        out,
    )
}

// The residuals of a block with the list of a number, 32-bit.
#[unsafe(no_mangle)]
pub extern "C" fn residual_dequantize_transform_skip_by_number_i32(
    table: &[u8],
    stream: usize,
    number: usize,
    levels: &[i32],
    n: usize,
    qp_prime: i32,
    bit_depth: u8,
    extended_precision: bool,
    out: &mut [i32],
) -> CountAnswered
    ensures { CountWrites result out.new (scale_answer (short table.now) stream (stream_of table.now stream) number (block residuals bits32 n qp_prime bit_depth extended_precision levels.now) out.old) }
{
    c_api::residual_dequantize_transform_skip_by_number_i32(
        table,
        stream,
        number,
        levels,
        n,
        qp_prime,
        bit_depth,
        extended_precision,
        out,
    )
}

// The residuals of a block with the list of a number, 16-bit.
#[unsafe(no_mangle)]
pub extern "C" fn residual_dequantize_transform_skip_by_number_i16(
    table: &[u8],
    stream: usize,
    number: usize,
    levels: &[i32],
    n: usize,
    qp_prime: i32,
    bit_depth: u8,
    extended_precision: bool,
    out: &mut [i16],
) -> CountAnswered
    ensures { CountWrites result out.new (scale_answer (short table.now) stream (stream_of table.now stream) number (block residuals bits16 n qp_prime bit_depth extended_precision levels.now) out.old) }
{
    c_api::residual_dequantize_transform_skip_by_number_i16(
        table,
        stream,
        number,
        levels,
        n,
        qp_prime,
        bit_depth,
        extended_precision,
        out,
    )
}
