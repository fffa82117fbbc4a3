// The two widths of coefficients and residuals, and what differs between them.
// Kept: `number` in place of `Into<i32>`: what that gives would be one more law of the trait, for the one clause that `number` has.
ghost use Rattle.std.specs.Prelude.{◌≡◌, ℕ, ◌≤◌, ℤ};
ghost use Rattle.std.specs.Int.{w16};
ghost use Rattle.std.proofs.Common.{SFits};
ghost use Rattle.integers.specs.Shift.{round_shift};
ghost use Rattle.integers.specs.Within.{Within};
ghost use Rattle.tiles.proofs.FitLaws.{read_as_they_are, read_unlimited, sums_as_they_are, sums_unlimited};

use tiles::{Input, Output};

pub trait Sample: Input + Output {
    // The least shift of stage two after which no sum is limited.
    ghost least_shift: { ℕ };

    fn number(self) -> i32
        ensures { result ≡ Self.value self };

    // A stage reads a number as it is where it fits 16 bits.
    ghost reads: { (x : Self) → SFits w16 (Self.value x) → Self.read x ≡ Self.value x };

    // A sum of at most 1862 × 2^15, the most that a line of 32 points gives.
    ghost unlimited: { (s : ℕ) (x : ℤ) → least_shift ≤ s → s ≤ 12 → Within 61014016 x → Self.made (round_shift x s) ≡ round_shift x s };
}

impl Sample for i32 {
    ghost least_shift = { 0 };

    fn number(self) -> i32 {
        self
    }

    ghost reads = { read_unlimited };

    ghost unlimited = { sums_as_they_are };
}

impl Sample for i16 {
    ghost least_shift = { 11 };

    fn number(self) -> i32 {
        self as i32
    }

    ghost reads = { read_as_they_are };

    ghost unlimited = { sums_unlimited };
}
