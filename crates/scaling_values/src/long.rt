// One level with the m of a list at every range. Without the power of two that the factor and the shift share a product has up to 37 bits; in two parts,
// by the level's seven last bits and the others, every factor fits 16 bits and every sum 32, so that the compiler works out several at once.
ghost use Rattle.std.specs.Prelude.{◌≡◌, ◌||◌, cond, ◌≤◌, pos, ◌+ℤ◌, ◌*ℤ◌, ◌≤ℤ◌};
ghost use Rattle.std.specs.Int.{w32};
ghost use Rattle.std.proofs.Common.{SFits};
ghost use Rattle.std.specs.Int.Signed.{lt_z};
ghost use Rattle.integers.specs.Clip.{clip3};
ghost use Rattle.integers.specs.Within.{Within};
ghost use Rattle.scaling_values.specs.Level.{Manageable};
ghost use Rattle.scaling_values.specs.Long.{rest_of, long_by, PartsOf, Near, Longable, Long, LongFor, LongScaled};

use crate::{FlatLevel, LongParams, Parts, listed, range};
use parameters::DequantParams;

// What a number has beside the multiple of 128 below it.
fn rest_of(x: i32) -> i32
    requires { Within 8388608 x }
    ensures { result ≡ rest_of x }
{
    let over = x >> 7;
    x - over * 128
}

// A level's product with its rounding, in two parts. The cast changes nothing: it tells the compiler that 16 bits hold the level's first part.
fn product(near: i32, factor: i32, add: i32) -> Parts
    requires near { Near near }
    requires within { Within 16065 factor }
    requires within_2 { Within 32768 add }
    ensures { PartsOf (near *ℤ factor +ℤ add) result }
{
    let first = (near >> 7) as i16;
    let sum = rest_of(near) * factor + add;
    Parts {
        over: (first as i32) * factor + (sum >> 7),
        rest: rest_of(sum),
    }
}

// The two parts put together.
fn whole(made: Parts) -> i32
    requires sfits { SFits w32 (made.over *ℤ pos 128) }
    requires sfits_2 { SFits w32 (made.over *ℤ pos 128 +ℤ made.rest) }
    ensures { result ≡ made.over *ℤ pos 128 +ℤ made.rest }
{
    made.over * 128 + made.rest
}

// A level with the m of a list.
pub fn scaled_long(level: i32, m: u8, by: LongParams) -> FlatLevel
    requires { Long by }
    ensures { LongScaled by m level result }
{
    let near = level.clamp(by.least, by.most);
    let made = product(near, (m as i32) * by.base, by.add);
    if made.over < by.low {
        return FlatLevel {
            value: by.least,
            limited: 1,
        };
    }
    if by.top < made.over {
        return FlatLevel {
            value: by.most,
            limited: 1,
        };
    }
    FlatLevel {
        value: (whole(made) >> by.down) << by.up,
        limited: range::outside(level, by.least, by.most),
    }
}

// The numbers of a block by where the range ends.
fn long_of(base: i32, add: i32, down: u32, up: u32, end: u32, most: u32) -> LongParams
    requires le_end { (1 ≤ end) × (end ≤ 16777216) }
    requires most_bound { most ≤ 4194303 }
    ensures { result ≡ long_by base add down up end most }
{
    LongParams {
        base,
        add,
        down,
        up,
        low: -(end as i32),
        top: (end - 1) as i32,
        least: -((most + 1) as i32),
        most: most as i32,
    }
}

// The numbers of a block.
pub fn long_params(by: DequantParams) -> LongParams
    requires manageable { Manageable by }
    requires longable { Longable by }
    ensures { LongFor by result }
{
    let scale = listed::scale_of(by);
    let zeros = scale.trailing_zeros();
    let base = listed::odd_of(scale, zeros);
    let most = by.clip_max as u32;
    if zeros < by.shift {
        let down = by.shift - zeros;
        return long_of(
            base,
            1i32 << (down - 1),
            down,
            0,
            ((most + 1) << down) >> 7,
            most,
        );
    }
    let up = zeros - by.shift;
    long_of(base, 0, 0, up, ((most + 1) >> up) >> 7, most)
}
