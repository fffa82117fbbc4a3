// Row 13: planes that do not hold their picture, and blocks past it.
#![tactic(auto)]

ghost use Rattle.std.specs.Prelude.{◌≡◌, ◌+◌, ltb};
ghost use Rattle.planes.specs.Picture.{side_refused, stride_refused, picture_refused, block_outside, PictureChecked, BlockChecked};

use refusal::Refusal;

// A width or a height.
#[tactic(auto, unfolding(crate::specs::Picture::side_refused))]
fn side_refused(k: usize) -> bool
    ensures { result ≡ side_refused k }
{
    !(1..=16384).contains(&k)
}

// A stride, beside the width.
#[tactic(auto, unfolding(crate::specs::Picture::stride_refused))]
fn stride_refused(width: usize, stride: usize) -> bool
    ensures { result ≡ stride_refused width stride }
{
    !(width..=65536).contains(&stride)
}

// Whether k places from `first` on pass the end of a side. Both may be any number, so nothing is added.
fn passes(first: usize, k: usize, side: usize) -> bool
    ensures { result ≡ ltb side (first + k) }
{
    side < k || side - k < first
}

// A picture in a plane: the sample of column x and row y stands at y × stride + x.
// Kept: the plane beside it: one call reads it, another writes it, and a struct of a slice that is written would have to promise that it stays the same one (its ghost_name).
#[derive(Clone, Copy)]
pub struct Extent {
    pub width: usize,
    pub height: usize,
    pub stride: usize,
}

impl Extent {
    // Whether a plane of `len` samples does not hold the picture.
    #[tactic(auto, using(crate::proofs::PictureLaws::plane_fits), unfolding(crate::specs::Picture::picture_refused))]
    fn refused(self, len: usize) -> bool
        ensures { result ≡ picture_refused self.width self.height self.stride len }
    {
        side_refused(self.width)
            || side_refused(self.height)
            || stride_refused(self.width, self.stride)
            || len < self.stride * self.height
    }

    // Row 13, of a plane of `len` samples.
    pub fn check(self, len: usize) -> Result<(), Refusal>
        ensures { PictureChecked self.width self.height self.stride len result }
    {
        refusal::check(self.refused(len), Refusal::PictureInvalid)
    }

    // Whether a block of n columns and rows, whose first sample is at column x and row y, lies past the picture.
    #[tactic(auto, unfolding(crate::specs::Picture::block_outside))]
    fn block_outside(self, n: usize, x: usize, y: usize) -> bool
        ensures { result ≡ block_outside n self.width self.height x y }
    {
        passes(x, n, self.width) || passes(y, n, self.height)
    }

    // Row 13, of such a block.
    pub fn check_block(self, n: usize, x: usize, y: usize) -> Result<(), Refusal>
        ensures { BlockChecked n self.width self.height x y result }
    {
        refusal::check(self.block_outside(n, x, y), Refusal::PictureInvalid)
    }
}
