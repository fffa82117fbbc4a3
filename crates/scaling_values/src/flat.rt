// One level without a list in 32 bits, at every range. Two levels of a block bound those that nothing limits, so that one pair of tests before
// the product tells what was limited, nothing is limited after it, and 32 bits hold it.
ghost use Rattle.std.specs.Prelude.{◌≡◌};
ghost use Rattle.scaling_values.specs.Flat.{Regular, Divided, TopOf, LowOf, FlatFor, Short, FlatScaled};
ghost use Rattle.scaling_values.specs.Level.{Manageable};

use crate::{FlatLevel, FlatParams, level};
use parameters::DequantParams;

// The largest level that nothing limits.
// Kept: the four numbers apart, here and below: both functions have one caller, where they are locals.
fn top_level(base: u32, add: u32, most: u32, shift: u32) -> u32
    requires { Divided base add shift most }
    ensures { TopOf base add shift most result }
{
    let enough = (((most + 1) << shift) - 1 - add) / base;
    enough.min(most)
}

// The size of the least one.
fn low_level(base: u32, add: u32, most: u32, shift: u32) -> u32
    requires { Divided base add shift most }
    ensures { LowOf base add shift most result }
{
    let enough = (((most + 1) << shift) + add) / base;
    enough.min(most + 1)
}

// The numbers of a block: the 4 bits of m = 16 are shifted out of factor and rounding.
// Kept: `Manageable` is a clause here and in `level`, `listed` and `long`: callers may make a `DequantParams` of any numbers, and as a ghost field it would ask each of them that they fit.
pub fn flat_params(by: DequantParams) -> FlatParams
    requires manageable { Manageable by }
    requires regular { Regular by }
    ensures { FlatFor by result }
{
    let base = integers::shift_right(by.factor, 4);
    let add = integers::shift_right(by.add, 4);
    let shift = by.shift - 4;
    let most = by.clip_max as u32;
    let largest = top_level(base as u32, add as u32, most, shift);
    let least = low_level(base as u32, add as u32, most, shift);
    let top = largest as i32;
    let low = -(least as i32);
    let under = level::scaled_listed(low - 1, 16, by);
    let over = level::scaled_listed(top + 1, 16, by);
    FlatParams {
        base: base as i32,
        add: add as i32,
        shift,
        low,
        top,
        under: under.value,
        over: over.value,
    }
}

// A level without a list.
pub fn scaled_flat(level: i32, by: FlatParams) -> FlatLevel
    requires { Short by }
    ensures { FlatScaled by level result }
{
    if level < by.low {
        return FlatLevel {
            value: by.under,
            limited: 1,
        };
    }
    if by.top < level {
        return FlatLevel {
            value: by.over,
            limited: 1,
        };
    }
    FlatLevel {
        value: (level * by.base + by.add) >> by.shift,
        limited: 0,
    }
}
