// One stage of 8 to 32 points on 32-bit data, for every range from 15 to 22, by the stages of `tiles`, which read 16 bits: of the values as they
// stand, where all fit 16 bits, else of two parts of each. A value is limited to the range as it is read.
// Internal: no refusal; callers meet each `requires`.
#![tactic(auto)]

ghost use Rattle.std.specs.Prelude.{◌≡◌, ◌*◌, length};
ghost use Rattle.tiles_wide.specs.Pass.{PassNeeds, PassGives};

use tiles::{Stage, half};
use wide_parts::all_narrow;

// Line c becomes row c of out, for c < count. Rows past those of the stage are taken to be zero, and A is the number of values in the others.
pub fn pass<S: Stage, const A: usize>(
    s: &[i32],
    range: u32,
    count: usize,
    shift: u32,
    out: &mut [i32],
)
    requires { PassNeeds S.ROWS S.POINTS range count shift (length s.now) (length out.old) × (A ≡ S.ROWS * S.POINTS) }
    ensures { PassGives S.ROWS S.POINTS range count shift s.now out.old out.new }
{
    if all_narrow(s, A) {
        S::stage(s, count, half(shift), shift, out);
    } else {
        S::parts(s, range - 15, count, half(shift), shift + 15 - range, out);
    }
}
