// Lines of 4 points in 32-bit products: their sums fit 32 bits in every range.
ghost use Rattle.std.specs.Prelude.{◌≡◌, ℕ, ◌+◌, ◌*◌, ◌<◌, ◌≤◌, pos, length, get_or};
ghost use Rattle.integers.specs.Shift.{round_shift};
ghost use Rattle.transform_1d.specs.MatrixOf.{matrix_of};
ghost use Rattle.transform_1d.specs.Rows.{Placed, Filled};
ghost use Rattle.stages_wide.specs.Parts.{limited_at, StagesNeeds, both_stages};
ghost use Rattle.stages_wide.specs.Products.{limited_up_to, matrix_value, RoundNeeds, ProductsNeeds, LimitedNeeds};

use crate::parts::limited;
use lines_wide::line_4;
use tiles::rounded;
use transform_1d::Kind;

// The first values, limited: as many as x has.
fn limit(s: &[i32], range: u32, x: &mut [i32])
    requires { (range ≤ 22) × (length x.old ≤ length s.now) }
    ensures { Placed 0 (length x.old) (limited_at range s.now) x.old x.new }
{
    for j in 0..x.len() {
        x[j] = limited(s[j], range);
    }
}

// w sums, rounded, from place at on.
// Kept: w and at beside the slices: with w a constant the loop is written out before its caller is shaped, and a block of 4 points takes two fifths
// longer; of a part of out that is lent, each clause would say too that what is around it stays.
pub fn put_rounded(z: &[i32], w: usize, shift: u32, out: &mut [i32], at: usize)
    requires { RoundNeeds w z.now shift × (at + w ≤ length out.old) }
    ensures { Placed at w (λ j. round_shift (get_or z.now j (pos 0)) shift) out.old out.new }
{
    for j in 0..w {
        out[at + j] = rounded(z[j], shift);
    }
}

// Kept: functions of 4 points, here and in sizes.rt: their lines are 32-bit products and of two kinds, so that 4 points are no `Stage`.
// Lines of 4 points down the first columns of a block: line c becomes row c of out.
fn columns_4(kind: Kind, x: &[i32], nx: usize, shift: u32, out: &mut [i32])
    requires { ProductsNeeds 4 x.now nx 1 4 shift (length out.old) × (nx ≤ 4) × (16 ≤ length x.now) }
    ensures { Filled 4 4 (matrix_value (matrix_of kind 4) 4 (λ i. get_or x.now i (pos 0)) 1 4 shift) nx out.old out.new }
{
    for c in 0..nx {
        let v = [x[c], x[c + 4], x[c + 8], x[c + 12]];
        let z = line_4(kind, v);
        put_rounded(&z[..], 4, shift, out, c * 4);
    }
}

// One stage of 4 points, values limited as they are read.
pub fn stage_4(kind: Kind, s: &[i32], range: u32, nx: usize, shift: u32, out: &mut [i32])
    requires { LimitedNeeds 4 nx 1 4 shift range 16 (length s.now) (length out.old) }
    ensures { Filled 4 4 (matrix_value (matrix_of kind 4) 4 (limited_up_to range s.now 16) 1 4 shift) nx out.old out.new }
{
    let mut x = [0i32; 16];
    limit(s, range, &mut x[..]);
    columns_4(kind, &x[..], nx, shift, out);
}

// Both stages of 4 points.
// Kept: shift, range and nx apart, here, in blocks.rt and in sizes.rt: the first stage takes range and nx, the second shift and range, and each would
// take a struct apart.
pub fn both_4(kind: Kind, shift: u32, range: u32, nx: usize, coeff: &[i32], out: &mut [i32])
    requires { StagesNeeds 4 shift range nx (length coeff.now) (length out.old) }
    ensures { Filled 4 4 (both_stages (matrix_of kind 4) 4 shift range nx coeff.now) 4 out.old out.new }
{
    let mut g = [0i32; 16];
    stage_4(kind, coeff, range, nx, 7, &mut g[..]);
    stage_4(kind, &g[..], range, 4, shift, out);
}
