// Text written into a lent buffer at a place; each function answers where the text ends. Internal: callers see that there is room: 12 bytes are
// enough for a signed number of 32 bits and what follows it, 20 for one without a sign.
#![tactic(auto)]

ghost use Rattle.std.specs.Prelude.{◌≡◌, cond, ◌+◌, ◌*◌, ◌≤◌, ◌<◌, ltb, length};
ghost use Rattle.text.specs.Text.{unsigned_text, signed_text, row_text, block_text, space, line_end, Wrote, WroteUpTo};

// Kept: a buffer and the place where its text ends stand apart, here and in the crates above: a struct of both would have to promise for the buffer that it stays the same one
// (its ghost_name), a clause more for each.
// Kept: no Display, for numbers, rows and blocks: a format answers a Result, and no clause of std says that it is Ok, even where there is room; these calls cannot fail.

// Bytes as they are.
pub fn put_bytes(bytes: &[u8], out: &mut [u8], at: usize) -> usize
    requires { at + length bytes.now ≤ length out.old }
    ensures { Wrote out.old at bytes.now out.new result }
{
    let end = at + bytes.len();
    out[at..end].copy_from_slice(bytes);
    end
}

// A number without a sign: at most 20 digits.
// Kept: digits by hand: the kit's itoa makes the text in a buffer of its own, to be copied from there, and says it by std's decimal, which a law would have to bring to `unsigned_text`: no shorter than these lines.
pub fn put_unsigned(n: u64, out: &mut [u8], at: usize) -> usize
    requires { at + length (unsigned_text n) ≤ length out.old }
    ensures { Wrote out.old at (unsigned_text n) out.new result }
{
    if n < 10 {
        out[at] = b'0' + n as u8;
        return at + 1;
    }
    let end = put_unsigned(n / 10, out, at);
    out[end] = b'0' + (n % 10) as u8;
    end + 1
}

// A number with its sign: at most 11 bytes, which the smallest 32-bit number takes.
pub fn put_signed(z: i32, out: &mut [u8], at: usize) -> usize
    requires { at + 11 ≤ length out.old }
    ensures { WroteUpTo out.old at (signed_text z) out.new result (at + 11) }
{
    let size = integers::magnitude(z) as u64;
    if z < 0 {
        out[at] = b'-';
        return put_unsigned(size, out, at + 1);
    }
    put_unsigned(size, out, at)
}

fn separator(i: usize, n: usize) -> u8
    requires { i < n }
    ensures { result ≡ cond (ltb (i + 1) n) space line_end }
{
    if i + 1 < n { b' ' } else { b'\n' }
}

// A row of numbers.
pub fn put_row(row: &[i32], out: &mut [u8], at: usize) -> usize
    requires { at + 12 * length row.now ≤ length out.old }
    ensures { WroteUpTo out.old at (row_text row.now) out.new result (at + 12 * length row.now) }
{
    let mut end = at;
    for (i, z) in row.iter().enumerate() {
        end = put_signed(*z, out, end);
        out[end] = separator(i, row.len());
        end += 1;
    }
    end
}

// A block of size n, row by row.
pub fn put_block(values: &[i32], n: usize, out: &mut [u8], at: usize) -> usize
    requires n_in_bounds { n * n ≤ length values.now }
    requires n_in_bounds_2 { at + 12 * (n * n) ≤ length out.old }
    ensures { WroteUpTo out.old at (block_text n values.now) out.new result (at + 12 * (n * n)) }
{
    let mut end = at;
    for row in 0..n {
        end = put_row(&values[row * n..row * n + n], out, end);
    }
    end
}
