// The values of a body.
ghost use Rattle.std.specs.Prelude.{◌≡◌, ◌*◌, ◌≤◌, ◌<◌, T, length};
ghost use Rattle.h265.specs.Range.{is_size};
ghost use Rattle.integers.specs.Lists.{overwrite};
ghost use Rattle.feed_format.specs.Format.{level_at, edit_level, list_of};

use crate::List;

// The level that four bytes hold.
fn level(bytes: [u8; 4]) -> i32
    ensures { result ≡ level_at bytes 0 }
{
    u32::from_le_bytes(bytes).cast_signed()
}

// The first `count` levels of a body.
// Kept: the count beside the buffer: `overwrite` says too that the rest is as lent, which the laws of an opened block need; of a slice the caller would have to work that out.
pub fn read_levels(body: &[u8], count: usize, levels: &mut [i32])
    requires count_in_bounds { 4 * count ≤ length body.now }
    requires count_in_bounds_2 { count ≤ length levels.old }
    ensures { levels.new ≡ overwrite count (level_at body.now) levels.old }
{
    let (chunks, _) = body.as_chunks();
    for (i, bytes) in chunks[..count].iter().enumerate() {
        levels[i] = level(*bytes);
    }
}

// The levels of a block: its size, and bytes that hold as many levels as a block of that size has.
#[derive(Clone, Copy)]
pub struct LevelBytes<'a> {
    pub size: usize,
    pub bytes: &'a [u8],
    ghost known: { T (is_size size) },
    ghost whole: { 4 * (size * size) ≤ length bytes.now },
}

impl LevelBytes<'_> {
    // The levels, at the start of a buffer.
    pub fn read(self, levels: &mut [i32])
        requires { self.size * self.size ≤ length levels.old }
        ensures { levels.new ≡ overwrite (self.entry.size * self.entry.size) (level_at self.entry.bytes.now) levels.old }
    {
        read_levels(self.bytes, self.size * self.size, levels);
    }
}

// The level of an edit, behind its row and its column.
pub fn edit_level(body: &[u8]) -> i32
    requires { 6 ≤ length body.now }
    ensures { result ≡ edit_level body.now }
{
    level([body[2], body[3], body[4], body[5]])
}

// A list: 64 entries, then DC.
pub fn list_of(body: &[u8]) -> List
    requires { 65 ≤ length body.now }
    ensures { result ≡ list_of body.now }
{
    let mut entries = [0u8; 64];
    entries.copy_from_slice(&body[..64]);
    List {
        entries,
        dc: body[64],
    }
}
