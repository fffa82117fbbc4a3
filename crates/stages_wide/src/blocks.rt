// Stages of a block of any size.
ghost use Rattle.std.specs.Prelude.{◌≡◌, ◌+◌, ◌*◌, ◌<◌, ◌≤◌, T, length};
ghost use Rattle.h265.specs.Matrix.{trans_matrix};
ghost use Rattle.h265.specs.Range.{is_size};
ghost use Rattle.transform_1d.specs.Rows.{Filled};
ghost use Rattle.coefficients.specs.Rows.{RowsUsed};
ghost use Rattle.stages_wide.specs.Parts.{StagesNeeds, both_stages};

use crate::parts::limited;
use crate::products::both_4;
use crate::sizes::stages;
use coefficients::rows_used;
use tiles::{Whole8, Whole16, fill, rounded};
use tiles_32::Whole32;
use tiles_quarter::{Quarter8, Quarter16, Quarter32};
use transform_1d::Kind;

// Kept: no twins of `dc_fill`, `dct_sized` and `dct_plain` in `stages`: their stages are others, and every value is limited as it is read.
// Kept: a size as a number, as in `refusal`; shift, range and nx apart, as in products.rt.
// A DCT's block whose only coefficient is the first: row 0 of every DCT's matrix is 64, so that all outputs are equal.
fn dc_fill(n: usize, shift: u32, range: u32, coeff: &[i32], out: &mut [i32])
    requires { T (is_size n) × StagesNeeds n shift range 1 (length coeff.now) (length out.old) × RowsUsed coeff.now n 1 1 }
    ensures { Filled n n (both_stages (trans_matrix n) n shift range 1 coeff.now) n out.old out.new }
{
    let d = limited(coeff[0], range);
    let g = limited(rounded(64 * d, 7), range);
    fill(rounded(64 * g, shift), n * n, out);
}

// Both stages of the n-point DCT.
// Kept: a `match` on the size, as in lib.rt.
fn dct_sized(n: usize, shift: u32, range: u32, nx: usize, coeff: &[i32], out: &mut [i32])
    requires { T (is_size n) × StagesNeeds n shift range nx (length coeff.now) (length out.old) }
    ensures { Filled n n (both_stages (trans_matrix n) n shift range nx coeff.now) n out.old out.new }
{
    match n {
        4 => both_4(Kind::Dct, shift, range, nx, coeff, out),
        8 => stages::<Whole8, Quarter8, 64, 32>(shift, range, nx, coeff, out),
        16 => stages::<Whole16, Quarter16, 256, 64>(shift, range, nx, coeff, out),
        _ => stages::<Whole32, Quarter32, 1024, 256>(shift, range, nx, coeff, out),
    }
}

// Both stages of the n-point DCT; one coefficient alone fills its block.
// Kept: `rows_used` for one column, beside `first_row_alone` of `stages`: it is a public function of `coefficients`, which would go with its clause and its wrong program; and `first_row_alone` says nothing where it answers false.
pub fn stages_dct(n: usize, shift: u32, range: u32, nx: usize, coeff: &[i32], out: &mut [i32])
    requires { T (is_size n) × StagesNeeds n shift range nx (length coeff.now) (length out.old) }
    ensures { Filled n n (both_stages (trans_matrix n) n shift range nx coeff.now) n out.old out.new }
{
    if nx == 1 && rows_used(coeff, n, 1, 0) <= 1 {
        dc_fill(n, shift, range, coeff, out);
    } else {
        dct_sized(n, shift, range, nx, coeff, out);
    }
}
