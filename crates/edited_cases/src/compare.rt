// Comparisons with fresh computations.
use crate::buffers::Buffers;
use crate::settings;
use crate::settings::{Setting, Way};
use edited_block::EditedBlock;
use refusal::Refusal;
use scaling_blocks::blocks;
use transform_1d::Kind;

// A decode of all columns.
fn decode(setting: &Setting, coeff: &[i32], out: &mut [i32]) -> Result<(), Refusal> {
    let n = setting.n;
    let depth = setting.precision.bit_depth;
    match (setting.kind, setting.precision.extended) {
        (Kind::Dct, false) => transform::inv_transform_into_scalar(coeff, n, depth, n, out),
        (Kind::Dct, true) => transform::inv_transform_into_scalar_extended(coeff, n, depth, n, out),
        (Kind::Dst, false) => transform::inv_transform_dst_into_scalar(coeff, depth, out),
        (Kind::Dst, true) => transform::inv_transform_dst_into_scalar_extended(coeff, depth, out),
    }
}

// Whether a residual, with the marks after it, is a fresh decode of the coefficients.
fn is_decoded(setting: &Setting, coeff: &[i32], residual: &[i32]) -> bool {
    let mut out = [7i32; 1040];
    decode(setting, coeff, &mut out).is_ok() && residual == out.as_slice()
}

// Whether coefficients, with the marks after them, are those of levels.
fn is_scaled(setting: &Setting, levels: &[i32], coeff: &[i32]) -> bool {
    let mut out = [7i32; 1040];
    let answer = blocks::dequantize(
        levels,
        setting.n,
        setting.qp_prime,
        setting.precision,
        setting.list(),
        &mut out,
    );
    answer.is_ok() && coeff == out.as_slice()
}

// Whether record and intermediate are those of a fresh opening on the values, whose own residual is to be a decode.
fn is_opened(setting: &Setting, block: EditedBlock, values: &[i32; 1040], now: &Buffers) -> bool {
    let (mut levels, mut coeff) = setting.begun(values);
    let mut inter = [7i32; 1040];
    let mut residual = [7i32; 1040];
    let mut fresh = Buffers {
        levels: &mut levels,
        coeff: &mut coeff,
        inter: &mut inter,
        residual: &mut residual,
    };
    let opened = settings::open(setting, &mut fresh);
    opened.is_ok()
        && settings::block_of(opened) == block
        && is_decoded(setting, now.coeff, fresh.residual)
        && &*fresh.inter == &*now.inter
}

// Whether four buffers and a record are what a fresh opening gives on the values that are kept: levels or coefficients, by the way of the opening.
pub fn is_fresh(setting: &Setting, block: EditedBlock, kept: &[i32; 1040], now: &Buffers) -> bool {
    let marks = [7i32; 1040];
    let given = match setting.way {
        Way::Coefficients => &*now.levels == marks.as_slice() && &*now.coeff == kept.as_slice(),
        Way::Levels | Way::ListedLevels | Way::Other => {
            &*now.levels == kept.as_slice() && is_scaled(setting, kept, now.coeff)
        }
    };
    given && is_opened(setting, block, kept, now) && is_decoded(setting, now.coeff, now.residual)
}
