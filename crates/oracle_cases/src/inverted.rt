// The inverse transforms.
// Kept: what is replayed are the functions that C gets, each under its own name.
use crate::function::{Short, Transform};
use crate::{Case, run_listed, run_short};
use std::io::Read;

// Kept: one output for all arms, here and in `scaled`: each of its own would be filled in every case.
pub fn run_32(rt: &impl Print, stdin: &mut impl Read, case: Case, what: Transform) {
    let n = case.n;
    let nx = case.count;
    let depth = case.bit_depth;
    let mut out = [77i32; 1040];
    match what {
        Transform::Dct => run_listed(rt, stdin, &mut out, |_, coeff, out| {
            c_api::residual_inv_transform_into_scalar(coeff, n, depth, nx, out)
        }),
        Transform::DctExtended => run_listed(rt, stdin, &mut out, |_, coeff, out| {
            c_api::residual_inv_transform_into_scalar_extended(coeff, n, depth, nx, out)
        }),
        Transform::Dst => run_listed(rt, stdin, &mut out, |_, coeff, out| {
            c_api::residual_inv_transform_dst_into_scalar(coeff, depth, out)
        }),
        Transform::DstExtended => run_listed(rt, stdin, &mut out, |_, coeff, out| {
            c_api::residual_inv_transform_dst_into_scalar_extended(coeff, depth, out)
        }),
    }
}

pub fn run_16(rt: &impl Print, stdin: &mut impl Read, case: Case, what: Short) {
    let n = case.n;
    let nx = case.count;
    let depth = case.bit_depth;
    match what {
        Short::Dct => run_short(rt, stdin, |coeff, out| {
            c_api::residual_inv_transform_into_scalar16(coeff, n, depth, nx, out)
        }),
        Short::Dst => run_short(rt, stdin, |coeff, out| {
            c_api::residual_inv_transform_dst_into_scalar16(coeff, depth, out)
        }),
    }
}
