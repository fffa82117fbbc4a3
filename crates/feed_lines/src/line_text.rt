// Lines that are not rows: how one ends, one of a word and a number, and the two that stand behind a feed's blocks.
ghost use Rattle.std.specs.Prelude.{[], ◌∷◌, ◌++◌, ◌+◌, ◌≤◌, length};
ghost use Rattle.refusal.specs.Refusal.{number};
ghost use Rattle.text.specs.Text.{line_end, unsigned_text, WroteUpTo};
ghost use Rattle.feed_lines.specs.Lines.{refused_text, blocks_text, Lines};

use crate::Line;
use refusal::Refusal;

// A number that ends a line.
// Kept: a buffer and the place where its text ends apart, here and below, as in `text`.
fn put_last(n: u64, out: &mut [u8], at: usize) -> usize
    requires { at + 21 ≤ length out.old }
    ensures { WroteUpTo out.old at (unsigned_text n ++ (line_end ∷ [])) out.new result (at + 21) }
{
    let end = text::put_unsigned(n, out, at);
    out[end] = b'\n';
    end + 1
}

// A word with a space behind it, then a number that ends the line.
pub(crate) fn put_line(word: &[u8], n: u64, out: &mut [u8], at: usize) -> usize
    requires { at + length word.now + 21 ≤ length out.old }
    ensures { WroteUpTo out.old at (word.now ++ (unsigned_text n ++ (line_end ∷ []))) out.new result (at + length word.now + 21) }
{
    let end = text::put_bytes(word, out, at);
    put_last(n, out, end)
}

// The line of a refusal.
pub fn put_refused(refusal: Refusal, offset: u64, out: &mut [u8], at: usize) -> usize
    requires { at + 40 ≤ length out.old }
    ensures { WroteUpTo out.old at (refused_text (number refusal) offset) out.new result (at + 40) }
{
    let word = text::put_bytes(b"refused ", out, at);
    let end = text::put_unsigned(u64::from(refusal.number()), out, word);
    out[end] = b' ';
    put_last(offset, out, end + 1)
}

// The last line.
pub fn put_blocks(blocks: u64, out: &mut [u8], at: usize) -> usize
    requires { at + 40 ≤ length out.old }
    ensures { WroteUpTo out.old at (blocks_text blocks) out.new result (at + 40) }
{
    put_line(b"blocks ", blocks, out, at)
}

// The line of a refusal, with the byte offset of the refused record's kind, which the state before it holds.
pub fn refusal_line(refusal: Refusal, offset: u64) -> Line
    ensures { Lines result (refused_text (number refusal) offset) }
{
    let mut bytes = [0u8; 40];
    let end = put_refused(refusal, offset, &mut bytes, 0);
    Line { bytes, end }
}

// The last line of a feed that was not refused.
pub fn blocks_line(blocks: u64) -> Line
    ensures { Lines result (blocks_text blocks) }
{
    let mut bytes = [0u8; 40];
    let end = put_blocks(blocks, &mut bytes, 0);
    Line { bytes, end }
}
