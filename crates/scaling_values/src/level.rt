// One level by the numbers of its block. Every product stays in 64 bits: a level is limited to 2^22 in size before it is scaled, and no factor reaches 2^35.
ghost use Rattle.std.specs.Prelude.{◌≡◌, ◌||◌};
ghost use Rattle.std.specs.Int.Signed.{lt_z};
ghost use Rattle.integers.specs.Within.{Within};
ghost use Rattle.scaling_values.specs.Level.{Manageable, ScaledBy, ListedBy};

use crate::ScaledLevel;
use parameters::DequantParams;

// Whether a limit changed x.
fn moved(x: i64, limited: i64) -> bool
    ensures { result ≡ lt_z x limited || lt_z limited x }
{
    x != limited
}

// A level scaled by a factor, with the rounding, the shift and the limits of a block.
fn scaled(level: i32, factor: i64, by: DequantParams) -> ScaledLevel
    requires manageable { Manageable by }
    requires within { Within 19251855360 factor }
    ensures { ScaledBy by factor level result }
{
    let given = level as i64;
    let near = given.clamp(by.clip_min, by.clip_max);
    let shifted = integers::shift_right(near * factor + by.add, by.shift);
    let value = shifted.clamp(by.clip_min, by.clip_max);
    ScaledLevel {
        value: value as i32,
        level_limited: moved(given, near),
        result_limited: moved(shifted, value),
    }
}

// A level with the m of a list. The block's factor is 16 times what m is multiplied by.
pub fn scaled_listed(level: i32, m: u8, by: DequantParams) -> ScaledLevel
    requires { Manageable by }
    ensures { ListedBy by m level result }
{
    scaled(level, integers::shift_right(by.factor, 4) * (m as i64), by)
}
