// Whether values fit 16 bits.
// Internal: no refusal; callers meet each `requires`.
#![tactic(auto)]

ghost use Rattle.std.specs.Prelude.{◌≡◌, true, false, ◌≤◌, length};
ghost use Rattle.std.specs.Int.{w16};
ghost use Rattle.std.proofs.Common.{SFits};
ghost use Rattle.integers.specs.Within.{Narrow};

// `false` only where x fits 16 bits; `true` says nothing.
pub fn is_wide(x: i32) -> bool
    ensures { result ≡ false → SFits w16 x }
{
    i16::try_from(x).is_err()
}

// `true` only where the first w values all fit 16 bits; `false` says nothing.
// Kept: a loop with no early end, here and in `stages_wide`, of which the compiler tests several at a time; `all`, compiled, tests one at a time.
// Kept: w beside the slice, here and in `all_narrow`: a block is longer than the values that are read, and a part of a slice that is handed on
// costs the compiler its vectors.
fn narrow_run(s: &[i32], w: usize) -> bool
    requires { w ≤ length s.now }
    ensures { result ≡ true → Narrow w s.now }
{
    let mut fits = true;
    for j in 0..w {
        if is_wide(s[j]) {
            fits = false;
        }
    }
    fits
}

// The same, `false` saying nothing, with a look at 64 values first where there are more than 256: where values take more than 16 bits, one of those
// mostly does. With fewer the look takes more than it saves.
pub fn all_narrow(s: &[i32], w: usize) -> bool
    requires { w ≤ length s.now }
    ensures { result ≡ true → Narrow w s.now }
{
    if 256 < w && !narrow_run(s, 64) {
        return false;
    }
    narrow_run(s, w)
}
