// Prediction plus residual, limited to the depth's range and put into a plane.
ghost use Rattle.std.specs.Prelude.{◌≡◌, ◌+◌, ◌*◌, ◌≤◌, length};
ghost use Rattle.picture.specs.Rebuild.{rebuilt, Rebuilds, Below, Placed, Inside};
ghost use Rattle.picture.specs.Samples.{sample_max, rebuilt_sample, rebuilt_at, rebuilt_plane};

use crate::refuse;
use planes::Extent;
use refusal::Refusal;

// 2^depth - 1.
fn sample_max(bit_depth: u8) -> u16
    requires { bit_depth ≤ 16 }
    ensures { result ≡ sample_max bit_depth }
{
    ((1u32 << bit_depth) - 1) as u16
}

// One sample. The residual is limited to what is left on either side of the prediction, so that 32 bits hold every sum.
fn rebuilt_sample(top: u16, prediction: u16, residual: i32) -> u16
    requires { prediction ≤ top }
    ensures { result ≡ rebuilt_sample top prediction residual }
{
    let p = prediction as i32;
    (p + residual.clamp(-p, top as i32 - p)) as u16
}

// One row of the block: n samples from `from` on, put into the plane from `at` on.
// Kept: n, `from` and `at` beside the slices: `Placed` speaks of the whole plane, to which the law of the rows adds one row; of row slices each would need a law that it is that part of the whole.
#[inline(always)]
fn rebuild_row(
    n: usize,
    top: u16,
    residual: &[i32],
    prediction: &[u16],
    from: usize,
    at: usize,
    plane: &mut [u16],
)
    requires n_in_bounds { (from + n ≤ length residual.now) × (from + n ≤ length prediction.now) × (at + n ≤ length plane.old) }
    requires below { Below top (from + n) prediction.now }
    ensures { Placed at n (λ c. rebuilt_at top residual.now prediction.now (from + c)) plane.old plane.new }
{
    for c in 0..n {
        plane[at + c] = rebuilt_sample(top, prediction[from + c], residual[from + c]);
    }
}

// The rows of the block.
// Kept: size and depth, column and row, residual and prediction apart: `rebuild_block` is called with them apart, as C hands them over, and the definition takes each by itself.
#[inline(always)]
fn put_rows(
    n: usize,
    bit_depth: u8,
    residual: &[i32],
    prediction: &[u16],
    extent: Extent,
    x: usize,
    y: usize,
    plane: &mut [u16],
)
    requires inside { Inside n bit_depth extent.stride x y (length residual.now) (length prediction.now) (length plane.old) }
    requires below { Below (sample_max bit_depth) (n * n) prediction.now }
    ensures { plane.new ≡ rebuilt_plane n bit_depth residual.now prediction.now extent.stride x y plane.old }
{
    let top = sample_max(bit_depth);
    for k in 0..n {
        rebuild_row(
            n,
            top,
            residual,
            prediction,
            k * n,
            (y + k) * extent.stride + x,
            plane,
        );
    }
}

// The same. A block of size 4 has rows of a length that the compiler knows.
// Kept: two calls: rows of four whose length comes with the call take twice the time, most of it before and behind the loop over whole vectors.
fn rebuild_rows(
    n: usize,
    bit_depth: u8,
    residual: &[i32],
    prediction: &[u16],
    extent: Extent,
    x: usize,
    y: usize,
    plane: &mut [u16],
)
    requires inside { Inside n bit_depth extent.stride x y (length residual.now) (length prediction.now) (length plane.old) }
    requires below { Below (sample_max bit_depth) (n * n) prediction.now }
    ensures { plane.new ≡ rebuilt_plane n bit_depth residual.now prediction.now extent.stride x y plane.old }
{
    if n == 4 {
        put_rows(4, bit_depth, residual, prediction, extent, x, y, plane);
    } else {
        put_rows(n, bit_depth, residual, prediction, extent, x, y, plane);
    }
}

// The samples of a block in their places of the plane, whose first is at column x and row y of the picture.
#[tactic(auto, using(crate::proofs::RebuildLaws::samples_below, h265::proofs::RangeLaws::size_square), unfolding(crate::specs::Rebuild::rebuilt))]
pub fn rebuild_block(
    n: usize,
    bit_depth: u8,
    residual: &[i32],
    prediction: &[u16],
    extent: Extent,
    x: usize,
    y: usize,
    plane: &mut [u16],
) -> Result<(), Refusal>
    ensures { Rebuilds result plane.new (rebuilt n bit_depth residual.now prediction.now extent.width extent.height extent.stride x y plane.old) }
{
    refusal::check_size(n)?;
    refusal::check_depth(bit_depth)?;
    refusal::check_room(n, residual.len(), Refusal::InputTooShort)?;
    refusal::check_room(n, prediction.len(), Refusal::InputTooShort)?;
    extent.check(plane.len())?;
    extent.check_block(n, x, y)?;
    refuse::check_samples(sample_max(bit_depth), &prediction[..n * n])?;
    rebuild_rows(n, bit_depth, residual, prediction, extent, x, y, plane);
    Ok(())
}
