// The rows of a block and the line behind them.
ghost use Rattle.std.specs.Prelude.{[], ◌∷◌, ◌≡◌, ◌++◌, ◌+◌, ◌*◌, ◌≤◌, T, length, take};
ghost use Rattle.h265.specs.Range.{is_size};
ghost use Rattle.text.specs.Text.{block_text, line_end, unsigned_text, WroteUpTo};
ghost use Rattle.feed_format.specs.Format.{text_room};
ghost use Rattle.feed_lines.specs.Lines.{limited_text, columns_text};

use crate::line_text;
use feed_format::Kind;

// A block, and a line of a word and a number.
// Kept: a buffer and the place where its text ends apart, here and below, as in `text`.
fn put_counted(
    residual: &[i32],
    n: usize,
    word: &[u8],
    count: u64,
    out: &mut [u8],
    at: usize,
) -> usize
    requires block { T (is_size n) × (n * n ≤ length residual.now) }
    requires word { length word.now ≡ 8 }
    requires room { at + text_room (Kind.Levels n) ≤ length out.old }
    ensures { WroteUpTo out.old at (block_text n (take (n * n) residual.now) ++ (word.now ++ (unsigned_text count ++ (line_end ∷ [])))) out.new result (at + text_room (Kind.Levels n)) }
{
    let end = text::put_block(&residual[..n * n], n, out, at);
    line_text::put_line(word, count, out, end)
}

// A block of levels, and how many of its coefficients were limited.
#[tactic(auto, unfolding(crate::specs::Lines::limited_text))]
pub fn put_rows(residual: &[i32], n: usize, limited: u16, out: &mut [u8], at: usize) -> usize
    requires { T (is_size n) × (n * n ≤ length residual.now) × (at + text_room (Kind.Levels n) ≤ length out.old) }
    ensures { WroteUpTo out.old at (block_text n (take (n * n) residual.now) ++ limited_text limited) out.new result (at + text_room (Kind.Levels n)) }
{
    put_counted(residual, n, b"limited ", u64::from(limited), out, at)
}

// A block that is read, and how many of its columns are in use.
#[tactic(auto, unfolding(crate::specs::Lines::columns_text))]
pub fn put_reading(residual: &[i32], n: usize, columns: usize, out: &mut [u8], at: usize) -> usize
    requires { T (is_size n) × (n * n ≤ length residual.now) × (at + text_room (Kind.Levels n) ≤ length out.old) }
    ensures { WroteUpTo out.old at (block_text n (take (n * n) residual.now) ++ columns_text columns) out.new result (at + text_room (Kind.Levels n)) }
{
    put_counted(residual, n, b"columns ", columns as u64, out, at)
}
