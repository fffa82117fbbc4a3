// Writes a table: for every depth, flag and size the range R, the shift s of scaling, the shift t of transform skip and the largest QP'.
#![tactic(auto)]

use parameters::{Qp, QpPrime};
use refusal::{Precision, Refusal};
use std::fmt::Display;

// Kept: beside those of `cases`: a tab before each value, and a refusal by its number alone.
fn put<T: Display + Drop>(rt: &impl Print, value: T) {
    streams::write_all(rt, b"\t");
    streams::print(rt, value);
}

// The value, or the number of the refusal.
fn put_value<T: Display + Drop>(rt: &impl Print, answer: Result<T, Refusal>) {
    match answer {
        Ok(value) => put(rt, value),
        Err(refusal) => put(rt, refusal.number()),
    }
}

fn put_shifts(rt: &impl Print, n: usize, precision: Precision) {
    match parameters::transform_skip_params(n, QpPrime(0), precision) {
        Ok(params) => {
            put(rt, params.dequant.shift);
            put(rt, params.tr_shift);
        }
        Err(refusal) => put(rt, refusal.number()),
    }
}

fn put_line(rt: &impl Print, n: usize, precision: Precision) {
    streams::print(rt, precision.bit_depth);
    put(rt, precision.extended as u8);
    put(rt, n);
    put_value(rt, parameters::max_log2_transform_dynamic_range(precision));
    put_shifts(rt, n, precision);
    let largest = parameters::qp_prime(Qp(51), precision.bit_depth);
    put_value(rt, largest.map(|qp| qp.0));
    streams::write_all(rt, b"\n");
}

fn put_sizes(rt: &impl Print, precision: Precision) {
    for n in [4, 8, 16, 32] {
        put_line(rt, n, precision);
    }
}

fn main(rt: HostRuntime) {
    streams::write_all(&rt, b"depth\text\tsize\tR\ts\tt\tQP'\n");
    for bit_depth in 8..17 {
        put_sizes(&rt, Precision::new(bit_depth, false));
        put_sizes(&rt, Precision::new(bit_depth, true));
    }
}
