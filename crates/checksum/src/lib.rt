// The checksum form of the decoded picture hash, H.265 Annex D.
#![tactic(auto)]

ghost use Rattle.std.specs.Prelude.{◌≡◌, ◌+◌, ◌*◌, ◌<◌, ◌≤◌, length};
ghost use Rattle.refusal.specs.Outcome.{outcome};
ghost use Rattle.checksum.specs.Checksum.{xor_mask, sample_term, run_term, total, row_total, picture_checksum, checksummed};

use planes::Extent;
use refusal::Refusal;

// The mask of column x and row y.
fn xor_mask(x: u16, y: u16) -> u16
    ensures { result ≡ xor_mask x y }
{
    (x % 256) ^ (y % 256) ^ (x / 256) ^ (y / 256)
}

// What a sample adds.
fn sample_term(bit_depth: u8, sample: u16, mask: u16) -> u16
    requires { mask < 256 }
    ensures { (result ≡ sample_term bit_depth sample mask) × (result ≤ 510) }
{
    let low = (sample % 256) ^ mask;
    if 8 < bit_depth {
        low + ((sample / 256) ^ mask)
    } else {
        low
    }
}

// What the samples of a run add; the mask is that of its first column. In a run of 128 columns the mask changes by the column's low
// bits alone and 16 bits hold the sum, so that the compiler takes eight samples at a time.
fn run_total(bit_depth: u8, mask: u16, run: &[u16]) -> u16
    requires { (length run.now ≤ 128) × (mask < 256) }
    ensures { (result ≡ total (length run.now) (run_term bit_depth mask run.now)) × (result ≤ 510 * length run.now) }
{
    let mut sum: u16 = 0;
    for (k, sample) in run.iter().enumerate() {
        let term = sample_term(bit_depth, *sample, (k as u16) ^ mask);
        sum += term;
    }
    sum
}

// What row y adds: at most 510 for each of 16,384 samples.
// Kept: width and start beside the plane: the definition goes by them, and a slice of the row would need a law that its total is the same; `run_total` takes slices.
fn row_total(bit_depth: u8, width: usize, first: usize, y: u16, plane: &[u16]) -> u32
    requires { (width ≤ 16384) × (first + width ≤ length plane.now) }
    ensures { result ≡ row_total bit_depth width first y plane.now }
{
    let mut sum: u32 = 0;
    for x in (0..width).step_by(128) {
        let mask = xor_mask(x as u16, y);
        let count = (width - x).min(128);
        let from = first + x;
        let run = run_total(bit_depth, mask, &plane[from..from + count]);
        sum += run as u32;
    }
    sum
}

// What all rows add, modulo 2^32.
fn rows_total(bit_depth: u8, extent: Extent, plane: &[u16]) -> u32
    requires { (extent.width ≤ 16384) × (extent.height ≤ 16384) × (extent.width ≤ extent.stride) × (extent.stride ≤ 65536) × (extent.stride * extent.height ≤ length plane.now) }
    ensures { result ≡ picture_checksum bit_depth extent.width extent.height extent.stride plane.now }
{
    let mut sum: u32 = 0;
    for y in 0..extent.height {
        let row = row_total(bit_depth, extent.width, y * extent.stride, y as u16, plane);
        sum = sum.wrapping_add(row);
    }
    sum
}

// The checksum of the picture in a plane, whose samples may be any numbers.
#[tactic(auto, using(planes::proofs::PictureLaws::picture_accepted), unfolding(crate::specs::Checksum::checksummed))]
pub fn picture_checksum(extent: Extent, bit_depth: u8, plane: &[u16]) -> Result<u32, Refusal>
    ensures { outcome 0 result ≡ checksummed bit_depth extent.width extent.height extent.stride plane.now }
{
    refusal::check_depth(bit_depth)?;
    extent.check(plane.len())?;
    Ok(rows_total(bit_depth, extent, plane))
}
