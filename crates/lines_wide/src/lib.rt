// One-dimensional inverse transforms of 4 and 8 points on values of up to 23 bits. An output sums up to at most 479 × 2^22 in size, so that
// 32-bit products and sums are exact.
// Internal: no depth, no limit, no refusal; callers meet each `requires`.
// Kept: beside `lines`, which multiply 16-bit values and give twice each output; twice 479 × 2^22 is past the signed 32 bits.
#![tactic(auto)]

ghost use Rattle.std.specs.Prelude.{◌≡◌, ◌+◌, ◌*◌, ◌^◌, nat_abs, ◌+ℤ◌, ◌*ℤ◌};
ghost use Rattle.integers.specs.Within.{Within};
ghost use Rattle.h265.specs.Matrix.{trans_matrix, dst_matrix};
ghost use Rattle.transform_1d.specs.MatrixOf.{matrix_of};
ghost use Rattle.lines_wide.specs.Values.{Term, WideEntries, WideValues, WideOutputs, products_4, size_4, odd_rows};

use transform_1d::Kind;

// Two products.
fn pair(u: i32, x: i32, v: i32, y: i32) -> i32
    requires { Term u x × Term v y }
    ensures { (result ≡ u *ℤ x +ℤ v *ℤ y) × Within ((nat_abs u + nat_abs v) * 2 ^ 22) result }
{
    u * x + v * y
}

// Four products: a column of a matrix, and the values of a line.
fn quad(t: [i32; 4], x: [i32; 4]) -> i32
    requires { WideEntries t × WideValues 4 x }
    ensures { (result ≡ products_4 t x) × Within (size_4 t * 2 ^ 22) result }
{
    pair(t[0], x[0], t[1], x[1]) + pair(t[2], x[2], t[3], x[3])
}

// The 4-point line of the DCT, which is the even half of the 8-point one.
// Kept: a function for each size, with its entries as literals (DECISIONS 71): 8 points are these 4 and the odd half, and no size is above 8.
fn dct_4(x: [i32; 4]) -> [i32; 4]
    requires { WideValues 4 x }
    ensures { WideOutputs (trans_matrix 4) 4 x result }
{
    let p = pair(64, x[0], 64, x[2]);
    let q = pair(64, x[0], -64, x[2]);
    let r = pair(83, x[1], 36, x[3]);
    let s = pair(36, x[1], -83, x[3]);
    [p + r, q + s, q - s, p - r]
}

// The line of the DST.
fn dst_4(x: [i32; 4]) -> [i32; 4]
    requires { WideValues 4 x }
    ensures { WideOutputs dst_matrix 4 x result }
{
    [
        quad([29, 74, 84, 55], x),
        quad([55, 74, -29, -84], x),
        quad([74, 0, -74, 74], x),
        quad([84, -74, 55, -29], x),
    ]
}

// The odd half of the 8-point line.
fn odd_8(x: [i32; 4]) -> [i32; 4]
    requires { WideValues 4 x }
    ensures { WideOutputs odd_rows 4 x result }
{
    [
        quad([89, 75, 50, 18], x),
        quad([75, -18, -89, -50], x),
        quad([50, -89, 18, 75], x),
        quad([18, -50, 75, -89], x),
    ]
}

// The 4-point line of a kind of transform.
pub fn line_4(kind: Kind, x: [i32; 4]) -> [i32; 4]
    requires { WideValues 4 x }
    ensures { WideOutputs (matrix_of kind 4) 4 x result }
{
    match kind {
        Kind::Dct => dct_4(x),
        Kind::Dst => dst_4(x),
    }
}

// The 8-point line of the DCT.
pub fn line_8(x: [i32; 8]) -> [i32; 8]
    requires { WideValues 8 x }
    ensures { WideOutputs (trans_matrix 8) 8 x result }
{
    let e = dct_4([x[0], x[2], x[4], x[6]]);
    let o = odd_8([x[1], x[3], x[5], x[7]]);
    [
        e[0] + o[0],
        e[1] + o[1],
        e[2] + o[2],
        e[3] + o[3],
        e[3] - o[3],
        e[2] - o[2],
        e[1] - o[1],
        e[0] - o[0],
    ]
}
