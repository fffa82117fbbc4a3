// The version of the functions for C, as include/residual_refusals.h has it: 10,000 times the first number, 100 times the second, and the third.
ghost use Rattle.std.specs.Prelude.{◌≡◌};

pub fn residual_version() -> u32
    ensures { result ≡ 200 }
{
    200
}
