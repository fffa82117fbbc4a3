// Integers by code: what the definitions of specs/ say, on 64 bits. Internal: the crates above call these and meet what they require.
// Kept: `pow2`, `shift_right` and `magnitude` are one operator or method each, under the name that the rules have for it: that the operator is the rules' function is shown here once, and callers cite it.
#![tactic(auto)]

ghost use Rattle.std.specs.Prelude.{◌≡◌, ◌<◌, nat_abs};
ghost use Rattle.integers.specs.Clip.{clip3};
ghost use Rattle.integers.specs.Shift.{pow2, shift_right};

// 2^s.
pub fn pow2(s: u32) -> i64
    requires { s < 63 }
    ensures { result ≡ pow2 s }
{
    1i64 << s
}

// x limited to lo .. hi.
// Kept: `clamp` asks that lo ≤ hi; this asks nothing, and is the definition for every pair of ends.
#[tactic(auto, using(crate::proofs::MachineLaws::round_trip, crate::proofs::MachineLaws::lt_z_round_trip), unfolding(crate::specs::Clip::clip3))]
pub fn clip3(lo: i64, hi: i64, x: i64) -> i64
    ensures { result ≡ clip3 lo hi x }
{
    if x < lo {
        lo
    } else if hi < x {
        hi
    } else {
        x
    }
}

// x >> s, rounded down.
#[tactic(auto, using(crate::proofs::MachineLaws::round_trip, crate::proofs::MachineLaws::sfits_shr), unfolding(crate::specs::Shift::shift_right))]
pub fn shift_right(x: i64, s: u32) -> i64
    requires { s < 64 }
    ensures { result ≡ shift_right x s }
{
    x >> s
}

// The size of z.
pub fn magnitude(z: i32) -> u32
    ensures { result ≡ nat_abs z }
{
    z.unsigned_abs()
}
