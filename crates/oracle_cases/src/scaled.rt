// The functions that scale a block.
// Kept: what is replayed are the functions that C gets, each under its own name.
use crate::function::Scale;
use crate::{Case, run_listed};
use std::io::Read;

pub fn run_32(rt: &impl Print, stdin: &mut impl Read, case: Case, what: Scale) {
    let n = case.n;
    let qp = case.qp;
    let depth = case.bit_depth;
    let extended = case.extended_precision;
    let dc = case.byte;
    let mut out = [77i32; 1040];
    match what {
        Scale::Coefficients => run_listed(rt, stdin, &mut out, |_, levels, out| {
            c_api::residual_dequantize_into_scalar_i32(levels, n, qp, depth, extended, out)
        }),
        Scale::CoefficientsListed => run_listed(rt, stdin, &mut out, |list, levels, out| {
            c_api::residual_dequantize_scaled_into_scalar_i32(
                levels, n, qp, depth, extended, list, dc, out,
            )
        }),
        Scale::Residuals => run_listed(rt, stdin, &mut out, |_, levels, out| {
            c_api::residual_dequantize_transform_skip_into_scalar_i32(
                levels, n, qp, depth, extended, out,
            )
        }),
        Scale::ResidualsListed => run_listed(rt, stdin, &mut out, |list, levels, out| {
            c_api::residual_dequantize_transform_skip_scaled_into_scalar_i32(
                levels, n, qp, depth, extended, list, dc, out,
            )
        }),
    }
}

pub fn run_16(rt: &impl Print, stdin: &mut impl Read, case: Case, what: Scale) {
    let n = case.n;
    let qp = case.qp;
    let depth = case.bit_depth;
    let extended = case.extended_precision;
    let dc = case.byte;
    let mut out = [77i16; 1040];
    match what {
        Scale::Coefficients => run_listed(rt, stdin, &mut out, |_, levels, out| {
            c_api::residual_dequantize_into_scalar_i16(levels, n, qp, depth, extended, out)
        }),
        Scale::CoefficientsListed => run_listed(rt, stdin, &mut out, |list, levels, out| {
            c_api::residual_dequantize_scaled_into_scalar_i16(
                levels, n, qp, depth, extended, list, dc, out,
            )
        }),
        Scale::Residuals => run_listed(rt, stdin, &mut out, |_, levels, out| {
            c_api::residual_dequantize_transform_skip_into_scalar_i16(
                levels, n, qp, depth, extended, out,
            )
        }),
        Scale::ResidualsListed => run_listed(rt, stdin, &mut out, |list, levels, out| {
            c_api::residual_dequantize_transform_skip_scaled_into_scalar_i16(
                levels, n, qp, depth, extended, list, dc, out,
            )
        }),
    }
}
