// Whether a block ends after its first rows.
ghost use Rattle.std.specs.Prelude.{◌≡◌, true, ℕ, ◌<◌, ◌≤◌, pos, length, get_or, map};

use tiles::Output;

// `true` only where the elements from place `from` on are zero, up to place `to`; `false` says nothing.
// Kept: places beside the slice: tried as a part of it at each call, whose ends are const parameters of a stage, and the check does not cover such a call yet.
// Kept: a loop with no early end, of which the compiler takes several elements at a time; `all`, compiled, takes one at a time.
pub fn rest_zero<T: Output>(x: &[T], from: usize, to: usize) -> bool
    requires { (from ≤ to) × (to ≤ length x.now) }
    ensures { result ≡ true → (i : ℕ) → from ≤ i → i < to → get_or (map T.value x.now) i (pos 0) ≡ pos 0 }
{
    let mut zero = true;
    for i in from..to {
        zero &= x[i].is_zero();
    }
    zero
}
