// The version of the functions for C, as include/residual_refusals.h has it: 10,000 times the first number, 100 times the second, and the third.
ghost use Rattle.std.specs.Prelude.{◌≡◌};

#[unsafe(no_mangle)]
pub extern "C" fn residual_version() -> u32
    ensures { result ≡ 200 }
{
    c_api::residual_version()
}
