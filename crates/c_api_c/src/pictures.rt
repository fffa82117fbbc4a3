// Samples rebuilt into a plane, and the checksum of a picture.
// Kept: C hands over width, height and stride apart.
ghost use Rattle.std.specs.Prelude.{◌≡◌};
ghost use Rattle.checksum.specs.Checksum.{checksummed};
ghost use Rattle.picture.specs.Rebuild.{rebuilt};
ghost use Rattle.c_api.specs.Answers.{of_number};
ghost use Rattle.c_api.specs.Pictures.{Rebuilds};

use c_api::{Answered, NumberAnswered};

// The samples of a block, put into a plane.
#[unsafe(no_mangle)]
pub extern "C" fn picture_rebuild_block(
    n: usize,
    bit_depth: u8,
    residual: &[i32],
    prediction: &[u16],
    width: usize,
    height: usize,
    stride: usize,
    x: usize,
    y: usize,
    plane: &mut [u16],
) -> Answered
    ensures { Rebuilds result plane.new (rebuilt n bit_depth residual.now prediction.now width height stride x y plane.old) }
{
    c_api::picture_rebuild_block(
        n, bit_depth, residual, prediction, width, height, stride, x, y, plane,
    )
}

// The checksum of the picture in a plane.
#[unsafe(no_mangle)]
pub extern "C" fn picture_checksum(
    width: usize,
    height: usize,
    stride: usize,
    bit_depth: u8,
    plane: &[u16],
) -> NumberAnswered
    ensures { of_number result ≡ checksummed bit_depth width height stride plane.now }
{
    c_api::picture_checksum(width, height, stride, bit_depth, plane)
}
