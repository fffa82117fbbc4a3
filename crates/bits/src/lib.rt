// Bits of bytes, the high bit of each byte first, and Exp-Golomb codes in them. Internal: the crates above call these and meet what they require.
#![tactic(auto)]

ghost use Rattle.std.specs.Prelude.{◌≡◌, ◌+◌, ◌≤◌, IfOk};
ghost use Rattle.bits.specs.Bits.{is_there, bit_at, bits_number};
ghost use Rattle.bits.specs.ExpGolomb.{leading_zeros, unsigned_code};

// Why no number stands at an offset: its code has more than 32 leading zeros, or the bits end in it.
#[derive(Clone, Copy)]
pub enum CodeError {
    TooLong,
    Ended,
}

// Kept: bytes and an offset stand apart, here and in the crates above, and the offset's bound is a clause, since each code moves it on: a reader of both (&mut self) would promise for
// each code, beside its number, that the bytes are the same and where it stands then; the definitions (Reading) hand the offset on as the functions do.

// Whether the bytes reach to the bit at an offset.
pub fn is_there(bytes: &[u8], at: usize) -> bool
    ensures { result ≡ is_there bytes.now at }
{
    at / 8 < bytes.len()
}

// The bit at an offset, and 0 past the end.
pub fn bit(bytes: &[u8], at: usize) -> u8
    ensures { result ≡ bit_at bytes.now at }
{
    match bytes.get(at / 8) {
        Some(byte) => (byte >> (7 - at % 8)) % 2,
        None => 0,
    }
}

// The number that n bits stand for, the first one highest.
fn bits_number(bytes: &[u8], at: usize, n: usize) -> u64
    requires { (n ≤ 32) × (at ≤ 9223372036854775808) }
    ensures { result ≡ bits_number bytes.now at n }
{
    let mut number: u64 = 0;
    for i in 0..n {
        number = 2 * number + u64::from(bit(bytes, at + i));
    }
    number
}

// Kept: 33 stands for too many zeros, as in the definition of a code, and the one caller compares it at once.
// How many zeros stand before the first one, and 33 where there are more than 32.
fn leading_zeros(bytes: &[u8], at: usize) -> usize
    requires { at ≤ 9223372036854775808 }
    ensures { result ≡ leading_zeros bytes.now at }
{
    for zeros in 0..33 {
        if bit(bytes, at + zeros) == 1 {
            return zeros;
        }
    }
    33
}

// The code ue(v) at an offset: its number, and the offset behind it.
pub fn unsigned_code(bytes: &[u8], at: usize) -> Result<(u64, usize), CodeError>
    requires { at ≤ 4611686018427387904 }
    ensures { (result ≡ unsigned_code bytes.now at) × IfOk result (λ code. code.1 ≤ at + 65) }
{
    let zeros = leading_zeros(bytes, at);
    if zeros < 33 {
        if is_there(bytes, at + 2 * zeros) {
            let suffix = bits_number(bytes, at + zeros + 1, zeros);
            return Ok(((1u64 << zeros) - 1 + suffix, at + 2 * zeros + 1));
        }
        return Err(CodeError::Ended);
    }
    if is_there(bytes, at + 32) {
        return Err(CodeError::TooLong);
    }
    Err(CodeError::Ended)
}
