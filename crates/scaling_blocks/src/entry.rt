// The numbers of a block with a list: where R = 15, and at every range.
ghost use Rattle.std.specs.Prelude.{◌≡◌, Bool, ℕ, ℤ, cond};
ghost use Rattle.scaling_values.specs.Listed.{compact_level, compact_limited, Compact};
ghost use Rattle.scaling_values.specs.Long.{long_level, long_limited, Long};

use scaling_values::{FlatLevel, ListedParams, LongParams, listed, long};

pub(crate) trait ByEntry: Copy {
    // What holds of them, the coefficient of a level with an m, and whether it was limited.
    ghost ready: { Self → Type 0 };

    ghost scales: { Self → ℕ → ℤ → ℤ };

    ghost limits: { Self → ℕ → ℤ → Bool };

    fn scaled(self, level: i32, m: u8) -> FlatLevel
        requires { ready self }
        ensures value { result.value ≡ scales self m level }
        ensures limited { result.limited ≡ cond (limits self m level) 1 0 };
}

impl ByEntry for ListedParams {
    ghost ready = { Compact };

    ghost scales = { compact_level };

    ghost limits = { compact_limited };

    fn scaled(self, level: i32, m: u8) -> FlatLevel {
        listed::scaled_compact(level, m, self)
    }
}

impl ByEntry for LongParams {
    ghost ready = { Long };

    ghost scales = { long_level };

    ghost limits = { long_limited };

    fn scaled(self, level: i32, m: u8) -> FlatLevel {
        long::scaled_long(level, m, self)
    }
}
