// The inverse transform of a whole block of any kind, at 16 and at 32 bits: the refusals, lowest number first, then the stages of the range.
// Internal: callers meet each `requires`.
#![tactic(auto)]

ghost use Rattle.std.specs.Prelude.{◌≡◌, true, false, ◌*◌, ◌≤◌, T, length};
ghost use Rattle.integers.specs.Lists.{overwrite};
ghost use Rattle.h265.specs.Range.{is_size};
ghost use Rattle.h265.specs.Transform.{row_order, residual};
ghost use Rattle.refusal.specs.Check.{RoomChecked};
ghost use Rattle.refusal.specs.Outcome.{answer, accepted, refused};
ghost use Rattle.refusal.specs.Written.{Writes};
ghost use Rattle.transform_1d.specs.MatrixOf.{matrix_of};
ghost use Rattle.integers.specs.Within.{Narrow};
ghost use Rattle.refusal.specs.Condition.{bits16, bits32};
ghost use Rattle.transform_blocks.specs.Blocks.{transform_ladder, inverted, OfKind, InRange, plain_range};

use refusal::{Precision, Refusal};
use transform_1d::Kind;

// Row 6 or 7, as `why` says, of a size: its square does not wrap, which `refusal::check_room` would look at first.
#[tactic(auto, unfolding(refusal::specs::Condition::block_refused), using(h265::proofs::RangeLaws::size_bound))]
fn check_room(n: usize, len: usize, why: Refusal) -> Result<(), Refusal>
    requires { T (is_size n) }
    ensures { RoomChecked n len why result }
{
    refusal::check(len < n * n, why)
}

// The refusals of both widths, lowest number first, by the lengths of the buffers. Row 3 is of 16-bit output alone.
// Kept: a flag for row 3, which stands in the middle of the order: two functions would each repeat what is before it and after it.
// Kept: each length is a number of its own, which one line measures.
fn block_refusal(
    narrow: bool,
    n: usize,
    precision: Precision,
    coeff: usize,
    out: usize,
) -> Result<(), Refusal>
    ensures { answer result ≡ transform_ladder (refused tt) (accepted tt) narrow n precision.bit_depth precision.extended coeff out }
{
    refusal::check_size(n)?;
    refusal::check_depth(precision.bit_depth)?;
    refusal::check(
        narrow && refusal::width_refused(precision),
        Refusal::WidthTooNarrow,
    )?;
    check_room(n, coeff, Refusal::InputTooShort)?;
    check_room(n, out, Refusal::OutputTooShort)
}

// Reads each element: of a slice of signed numbers, only what is read is known to fit its type. The loop does nothing, and the compiler leaves it out.
fn elements_fit(xs: &[i16], len: usize)
    requires { len ≤ length xs.now }
    ensures { Narrow len xs.now }
{
    for i in 0..len {
        let _value = xs[i];
    }
}

// Kept: a function for each width: they share the ladder alone, since a coefficient is looked at for row 9, and a range chosen, at 32 bits only.
// A block at 16 bits, where no coefficient can be outside the range.
// Kept: put inside its two callers: a block of 4 points takes a tenth fewer instructions where its answer needs no place in memory.
#[inline(always)]
pub fn invert_16(
    kind: Kind,
    n: usize,
    bit_depth: u8,
    nx: usize,
    coeff: &[i16],
    out: &mut [i16],
) -> Result<(), Refusal>
    requires { OfKind kind n }
    ensures { Writes result out.new (inverted bits16 kind n bit_depth plain_range nx coeff.now out.old) }
{
    block_refusal(
        true,
        n,
        Precision::new(bit_depth, false),
        coeff.len(),
        out.len(),
    )?;
    elements_fit(coeff, n * n);
    stages::residual_plain(kind, n, bit_depth, nx.min(n), coeff, out);
    Ok(())
}

// Both stages in the range given; the plain range has its own, on 16-bit data.
// Kept: kind, size, depth and range apart, as in `stages_wide`: the refusals, the range and the stages each take some of them.
fn invert_in(
    kind: Kind,
    n: usize,
    bit_depth: u8,
    range: u32,
    nx: usize,
    coeff: &[i32],
    out: &mut [i32],
)
    requires { InRange kind n bit_depth range nx coeff.now (length out.old) }
    ensures { out.new ≡ overwrite (n * n) (row_order n (residual (matrix_of kind n) n bit_depth range nx coeff.now)) out.old }
{
    if range == 15 {
        stages::residual_plain(kind, n, bit_depth, nx, coeff, out);
    } else {
        stages_wide::residual_wide(kind, n, bit_depth, range, nx, coeff, out);
    }
}

// A block at 32 bits.
pub fn invert_32(
    kind: Kind,
    n: usize,
    precision: Precision,
    nx: usize,
    coeff: &[i32],
    out: &mut [i32],
) -> Result<(), Refusal>
    requires { OfKind kind n }
    ensures { Writes result out.new (inverted bits32 kind n precision.bit_depth precision.extended nx coeff.now out.old) }
{
    block_refusal(false, n, precision, coeff.len(), out.len())?;
    let range = coefficients::transform_range(precision);
    let columns = nx.min(n);
    coefficients::check_inside(coeff, n, columns, range)?;
    invert_in(kind, n, precision.bit_depth, range, columns, coeff, out);
    Ok(())
}
