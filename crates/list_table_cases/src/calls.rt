// The calls, each with what it lends.
use crate::function::{Amiss, Scaling};
use crate::lines;
use parameters::QpPrime;
use refusal::{Precision, Refusal};
use scaling_blocks::residual::Residual;
use std::fmt::Display;

// A block to scale by a number.
#[derive(Clone, Copy)]
pub struct Asked {
    pub stream: usize,
    pub number: usize,
    pub n: usize,
    pub qp: QpPrime,
    pub precision: Precision,
}

// A list cut out of the bytes for lists.
// Kept: list and DC stand apart, since a list to store is never none, as a ScalingList may be.
pub fn store(
    rt: &impl Print,
    table: &mut [u8],
    stream: usize,
    pattern: &[u8],
    from: u8,
    long: u8,
    dc: u8,
) {
    let start = from as usize;
    let end = start + long as usize;
    if end <= pattern.len() {
        let list = &pattern[start..end];
        lines::put_value(rt, list_table::store_list(table, stream, list, dc));
    }
}

pub fn drop(rt: &impl Print, table: &mut [u8], stream: usize, number: usize) {
    lines::put_answer(rt, list_table::drop_list(table, stream, number));
}

fn look_into(rt: &impl Print, table: &[u8], stream: usize, number: usize, list: &mut [u8]) {
    lines::put_value(rt, list_table::list_at(table, stream, number, list));
    cases::put_each(rt, list);
}

// With a lent list of 63, 64 or, by any other number, 65 elements.
pub fn look(rt: &impl Print, table: &[u8], stream: usize, number: usize, long: u8) {
    let mut list = [7u8; 65];
    let len = match long {
        63 => 63,
        64 => 64,
        _ => 65,
    };
    look_into(rt, table, stream, number, &mut list[..len]);
}

// A block and one element past it.
fn shown(n: usize) -> usize {
    match n {
        8 => 65,
        16 => 257,
        32 => 1025,
        _ => 17,
    }
}

// Kept: lent buffers, which a struct would only carry to the call; so below.
fn scaled<R: Residual>(
    what: Scaling,
    table: &[u8],
    asked: Asked,
    levels: &[i32],
    out: &mut [R],
) -> Result<u16, Refusal> {
    let stream = asked.stream;
    let number = asked.number;
    let n = asked.n;
    let qp = asked.qp;
    let precision = asked.precision;
    match what {
        Scaling::Coefficients => list_blocks::dequantize_by_number(
            table, stream, number, levels, n, qp, precision, out,
        ),
        Scaling::Residuals => list_blocks::transform_skip_by_number(
            table, stream, number, levels, n, qp, precision, out,
        ),
    }
}

fn show<R: Residual + Display>(
    rt: &impl Print,
    what: Scaling,
    table: &[u8],
    asked: Asked,
    levels: &[i32],
    out: &mut [R],
) {
    lines::put_count(rt, scaled(what, table, asked, levels, out));
    let len = shown(asked.n).min(out.len());
    cases::put_each(rt, &out[..len]);
}

// With 15 levels or places where these are amiss.
pub fn scale<R: Residual + Display>(
    rt: &impl Print,
    what: Scaling,
    amiss: Amiss,
    table: &[u8],
    asked: Asked,
    levels: &[i32],
    out: &mut [R],
) {
    let few = levels.len().min(15);
    let room = out.len().min(15);
    match amiss {
        Amiss::ShortLevels => show(rt, what, table, asked, &levels[..few], out),
        Amiss::ShortOut => show(rt, what, table, asked, levels, &mut out[..room]),
        _ => show(rt, what, table, asked, levels, out),
    }
}
