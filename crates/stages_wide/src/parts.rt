// Values limited to the range.
// Kept: the range as a number with its bound, here, in moves.rt and in products.rt: it comes as a number through every crate, and a type would be taken apart here.
ghost use Rattle.std.specs.Prelude.{◌≡◌, ◌≤◌};
ghost use Rattle.h265.specs.Range.{coeff_min, coeff_max, clip_coeff};

// Kept: a function for each end of the range: one is a power of two with its sign changed, the other that power less one.
// The least value of the range.
fn least(range: u32) -> i32
    requires { range ≤ 22 }
    ensures { result ≡ coeff_min range }
{
    -(1i32 << range)
}

// The largest value of the range.
fn most(range: u32) -> i32
    requires { range ≤ 22 }
    ensures { result ≡ coeff_max range }
{
    (1i32 << range) - 1
}

// x limited to the range.
pub fn limited(x: i32, range: u32) -> i32
    requires { range ≤ 22 }
    ensures { result ≡ clip_coeff range x }
{
    x.clamp(least(range), most(range))
}
