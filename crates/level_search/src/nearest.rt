// One coefficient: the level of least size that scales to it or past it. Scaling keeps the order, so that the sizes on the coefficient's side of zero are halved.
ghost use Rattle.std.specs.Prelude.{◌≡◌, ◌≤◌};
ghost use Rattle.scaling_values.specs.Level.{listed_level, Manageable};
ghost use Rattle.least_level.specs.Level.{equal};
ghost use Rattle.level_search.specs.Work.{sided, side_end, reaches, nearest_size, nearest, Invertible};

use parameters::DequantParams;
use scaling_values::level;

// The level of a size on the side of x.
fn sided(x: i32, size: u32) -> i32
    requires { size ≤ 4194304 }
    ensures { result ≡ sided x size }
{
    if x < 0 {
        return -(size as i32);
    }
    size as i32
}

// Kept: x, m and the numbers of a block stand apart, here and below, and `Invertible` is a clause: the scaling of one level takes the three so, and a struct of them would be
// opened at every call.

// The largest size on the side of x.
fn side_end(x: i32, by: DequantParams) -> u32
    requires { Invertible by }
    ensures { result ≡ side_end by x }
{
    if x < 0 {
        return by.clip_min.unsigned_abs() as u32;
    }
    by.clip_max.unsigned_abs() as u32
}

// Whether the level of a size scales to x or past it.
fn reaches(x: i32, size: u32, m: u8, by: DequantParams) -> bool
    requires manageable { Manageable by }
    requires size_bound { size ≤ 4194304 }
    ensures { result ≡ reaches (listed_level by m) x size }
{
    let scaled = level::scaled_listed(sided(x, size), m, by);
    let value = scaled.value;
    if x < 0 {
        return value <= x;
    }
    x <= value
}

// The least size that does, and the end of the side where none does.
fn nearest_size(x: i32, m: u8, by: DequantParams) -> u32
    requires { Invertible by }
    ensures { result ≡ nearest_size by (listed_level by m) x }
{
    let mut low: u32 = 0;
    let mut high = side_end(x, by);
    // Kept: a search by halves, whose step is no index; `partition_point` asks for a slice, and the sizes are in none.
    while low < high {
        let middle = (low + high) / 2;
        if reaches(x, middle, m, by) {
            high = middle;
        } else {
            low = middle + 1;
        }
    }
    low
}

// The level of that size.
pub(crate) fn nearest(x: i32, m: u8, by: DequantParams) -> i32
    requires { Invertible by }
    ensures { result ≡ nearest by (listed_level by m) x }
{
    sided(x, nearest_size(x, m, by))
}

// Whether a level scales to x.
pub(crate) fn scales_to(level: i32, x: i32, m: u8, by: DequantParams) -> bool
    requires { Manageable by }
    ensures { result ≡ equal (listed_level by m level) x }
{
    let scaled = level::scaled_listed(level, m, by);
    scaled.value == x
}
