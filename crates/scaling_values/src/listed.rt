// One level with the m of a list where R = 15: without the power of two that the factor and the shift share both factors of a product fit 16 bits,
// so that the compiler multiplies several at once, and 32 bits hold every product.
ghost use Rattle.std.specs.Prelude.{◌≡◌, ◌||◌, cond, ◌/◌, ◌%◌, ◌^◌, ◌≤◌, ◌<◌, pos, negsuc};
ghost use Rattle.std.specs.Int.Signed.{lt_z};
ghost use Rattle.integers.specs.Clip.{clip3};
ghost use Rattle.integers.specs.Shift.{shift_right};
ghost use Rattle.scaling_values.specs.Level.{Manageable};
ghost use Rattle.scaling_values.specs.Listed.{compact_result, scale_by, lowered_by, raised_by, Listable, ListedFor, Compact, CompactScaled};

use crate::{FlatLevel, ListedParams, range};
use parameters::DequantParams;

// The ends of the range where R = 15.
const LEAST: i32 = i16::MIN as i32;

const MOST: i32 = i16::MAX as i32;

// What m is multiplied by.
pub(crate) fn scale_of(by: DequantParams) -> u32
    requires manageable { Manageable by }
    requires factor_value { shift_right by.factor 4 ≡ pos (scale_by by) }
    requires by_bound { scale_by by ≤ 4718592 }
    ensures { result ≡ scale_by by }
{
    integers::shift_right(by.factor, 4) as u32
}

// Its odd part. The remainder changes nothing: it tells the compiler that 16 bits hold the product with m.
pub(crate) fn odd_of(scale: u32, zeros: u32) -> i32
    requires { zeros < 32 }
    ensures { result ≡ pos (scale / 2 ^ zeros % 64) }
{
    ((scale >> zeros) % 64) as i32
}

// The numbers where the shift is the larger power of two.
fn lowered(base: i32, down: u32) -> ListedParams
    requires { (1 ≤ down) × (down ≤ 16) }
    ensures { result ≡ lowered_by base down }
{
    ListedParams {
        base,
        add: 1i32 << (down - 1),
        down,
        up: 0,
        low: LEAST,
        top: MOST,
    }
}

// The numbers where it is not.
fn raised(base: i32, up: u32) -> ListedParams
    requires { up < 32 }
    ensures { result ≡ raised_by base up }
{
    ListedParams {
        base,
        add: 0,
        down: 0,
        up,
        low: LEAST >> up,
        top: MOST >> up,
    }
}

// The numbers of a block.
pub fn listed_params(by: DequantParams) -> ListedParams
    requires manageable { Manageable by }
    requires listable { Listable by }
    ensures { ListedFor by result }
{
    let scale = scale_of(by);
    let zeros = scale.trailing_zeros();
    let base = odd_of(scale, zeros);
    if zeros < by.shift {
        return lowered(base, by.shift - zeros);
    }
    raised(base, zeros - by.shift)
}

// What is shifted up in the end.
fn compact_result(level: i32, m: u8, by: ListedParams) -> i32
    requires { Compact by }
    ensures { result ≡ compact_result by m level }
{
    let near = level.clamp(LEAST, MOST);
    (near * ((m as i32) * by.base) + by.add) >> by.down
}

// A level with the m of a list.
// Kept: apart from `scaled_long` as `ListedParams` from `LongParams` (see there for the instructions): one product, where that puts two together.
pub fn scaled_compact(level: i32, m: u8, by: ListedParams) -> FlatLevel
    requires { Compact by }
    ensures { CompactScaled by m level result }
{
    let shifted = compact_result(level, m, by);
    if shifted < by.low {
        return FlatLevel {
            value: LEAST,
            limited: 1,
        };
    }
    if by.top < shifted {
        return FlatLevel {
            value: MOST,
            limited: 1,
        };
    }
    FlatLevel {
        value: shifted << by.up,
        limited: range::outside(level, LEAST, MOST),
    }
}
