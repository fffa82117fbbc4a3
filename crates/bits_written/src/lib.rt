// Exp-Golomb codes put into a buffer of bits, a bit an element, and such bits as bytes. Internal: the crates above call these and meet
// what they require.
#![tactic(auto)]

ghost use Rattle.std.specs.Prelude.{◌≡◌, ◌+◌, ◌*◌, ◌≤◌, length};
ghost use Rattle.integers.specs.Lists.{tabulate};
ghost use Rattle.text.specs.Text.{Wrote, WroteUpTo};
ghost use Rattle.bits_written.specs.Codes.{bits_of, zeros_of, unsigned_bits};
ghost use Rattle.bits_written.specs.Bytes.{byte_of, Binary};

// How many zeros the code of v begins with.
fn zeros_of(v: u64) -> usize
    requires { v ≤ 510 }
    ensures { (result ≡ zeros_of v) × (result ≤ 8) }
{
    (v + 1).ilog2() as usize
}

// Kept: a buffer and the place in it stand apart, here and in the crates above: a struct of both would have to promise for the buffer that it stays the same one (its ghost_name).
// n bits of v, the highest first.
fn put_bits(v: u64, n: usize, bits: &mut [u8], at: usize) -> usize
    requires { (n ≤ 9) × (at + n ≤ length bits.old) }
    ensures { Wrote bits.old at (bits_of n v) bits.new result }
{
    for i in 0..n {
        bits[at + i] = ((v >> (n - 1 - i)) % 2) as u8;
    }
    at + n
}

// The code ue(v), of at most 17 bits: v + 1 in z + 1 bits behind z zeros.
pub fn put_code(v: u64, bits: &mut [u8], at: usize) -> usize
    requires { (v ≤ 510) × (at + 17 ≤ length bits.old) }
    ensures { WroteUpTo bits.old at (unsigned_bits v) bits.new result (at + 17) }
{
    let zeros = zeros_of(v);
    let one = put_bits(0, zeros, bits, at);
    put_bits(v + 1, zeros + 1, bits, one)
}

// Kept: a byte by its number: tried over `chunks_exact(8)`, zipped with `out.iter_mut()` or counted, the proof that byte k is stored did not close.
// Byte k of bits.
fn byte_of(bits: &[u8], k: usize) -> u8
    requires { Binary bits.now × (8 * k + 8 ≤ length bits.now) }
    ensures { result ≡ byte_of bits.now k }
{
    let mut byte: u8 = 0;
    for bit in &bits[8 * k..8 * k + 8] {
        byte = 2 * byte + bit;
    }
    byte
}

// The first bytes of bits, as many as `out` has.
pub fn put_bytes(bits: &[u8], out: &mut [u8])
    requires { Binary bits.now × (8 * length out.old ≤ length bits.now) }
    ensures { out.new ≡ tabulate (length out.old) (byte_of bits.now) }
{
    for (k, byte) in out.iter_mut().enumerate() {
        *byte = byte_of(bits, k);
    }
}
