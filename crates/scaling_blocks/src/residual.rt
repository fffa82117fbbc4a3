// An element of a block's output: a coefficient or a residual, in 32 or in 16 bits.
ghost use Rattle.std.specs.Prelude.{◌≡◌, Bool, true, false, ℤ};
ghost use Rattle.std.proofs.Common.{SFits};
ghost use Rattle.scaling_blocks.specs.Blocks.{output_width};

pub trait Residual: Copy {
    // Whether it has 16 bits: row 3 applies to these alone.
    const NARROW: bool;

    ghost NARROW: { Bool };

    ghost reads: { Self → ℤ };

    fn of(value: i32) -> Self
        requires { SFits (output_width NARROW) value }
        ensures { reads result ≡ value };

    fn value(self) -> i32
        ensures is { result ≡ reads self }
        ensures fits { SFits (output_width NARROW) (reads self) };
}

impl Residual for i32 {
    const NARROW: bool = false;

    ghost NARROW = { false };

    ghost reads = { λ x. x };

    fn of(value: i32) -> i32 {
        value
    }

    fn value(self) -> i32 {
        self
    }
}

impl Residual for i16 {
    const NARROW: bool = true;

    ghost NARROW = { true };

    ghost reads = { λ x. x };

    fn of(value: i32) -> i16 {
        value as i16
    }

    fn value(self) -> i32 {
        self as i32
    }
}
