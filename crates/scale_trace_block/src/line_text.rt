// The lines of a block: index, m, reason and position.
ghost use Rattle.std.specs.Prelude.{[], ◌∷◌, ◌++◌, ◌+◌, ◌*◌, ◌<◌, ◌≤◌, T, length};
ghost use Rattle.h265.specs.Range.{is_size};
ghost use Rattle.text.specs.Text.{space, unsigned_text, WroteUpTo};
ghost use Rattle.feed_rules.specs.Block.{list_in};
ghost use Rattle.scale_trace_rules.specs.Block.{reason_text, position_text, rule_text, line_text, block_lines};
ghost use Rattle.scale_trace_block.specs.Work.{source_is, position_of};

use crate::{Source, rule};
use feed_format::{List, Mode};

// Kept: no Display, here and below, as in `text`: a format answers a Result, and no clause of std says that it is Ok, even where there is room.
// Kept: a buffer and the place where its text ends apart, here and below, as in `text`.
fn put_reason(source: Source, out: &mut [u8], at: usize) -> usize
    requires { at + 6 ≤ length out.old }
    ensures { WroteUpTo out.old at (reason_text (source_is source)) out.new result (at + 6) }
{
    match source {
        Source::None => text::put_bytes(b"none", out, at),
        Source::Four(_) => text::put_bytes(b"four", out, at),
        Source::Eight(_) => text::put_bytes(b"eight", out, at),
        Source::Dc => text::put_bytes(b"dc", out, at),
        Source::Repeat(_) => text::put_bytes(b"repeat", out, at),
        Source::Skip => text::put_bytes(b"skip", out, at),
    }
}

#[tactic(auto, using(crate::proofs::LineLaws::within, crate::proofs::LineLaws::position_short))]
fn put_position(source: Source, out: &mut [u8], at: usize) -> usize
    requires { (position_of source < 64) × (at + 2 ≤ length out.old) }
    ensures { WroteUpTo out.old at (position_text (source_is source)) out.new result (at + 2) }
{
    match source {
        Source::Four(p) | Source::Eight(p) | Source::Repeat(p) => {
            text::put_unsigned(p as u64, out, at)
        }
        Source::None | Source::Dc | Source::Skip => text::put_bytes(b"-", out, at),
    }
}

// A number below 1024 and a space.
#[tactic(auto, using(crate::proofs::LineLaws::number_short))]
fn put_number(n: usize, out: &mut [u8], at: usize) -> usize
    requires { (n < 1024) × (at + 5 ≤ length out.old) }
    ensures { WroteUpTo out.old at (unsigned_text n ++ (space ∷ [])) out.new result (at + 5) }
{
    let end = text::put_unsigned(n as u64, out, at);
    out[end] = b' ';
    end + 1
}

// The rule's word and position, which end a line.
fn put_rule(source: Source, out: &mut [u8], at: usize) -> usize
    requires { (position_of source < 64) × (at + 10 ≤ length out.old) }
    ensures { WroteUpTo out.old at (rule_text (source_is source)) out.new result (at + 10) }
{
    let word = put_reason(source, out, at);
    out[word] = b' ';
    let end = put_position(source, out, word + 1);
    out[end] = b'\n';
    end + 1
}

// The line of one index: at most 20 bytes.
#[tactic(auto, using(h265::proofs::RangeLaws::size_square))]
fn put_line(
    list: &Option<List>,
    mode: Mode,
    n: usize,
    index: usize,
    out: &mut [u8],
    at: usize,
) -> usize
    requires index_in_block { T (is_size n) × (index < n * n) }
    requires at_in_bounds { at + 20 ≤ length out.old }
    ensures { WroteUpTo out.old at (line_text (list_in list.now) mode n index) out.new result (at + 20) }
{
    let source = rule::source_of(list, mode, n, index);
    let m = rule::factor_of(list, mode, n, index);
    let first = put_number(index, out, at);
    let second = put_number(usize::from(m), out, first);
    put_rule(source, out, second)
}

// The lines of a block, in row order; a block of size 0 has none.
#[tactic(auto, using(h265::proofs::TransformLaws::cell_row, crate::proofs::LineLaws::lines_done))]
pub fn put_lines(list: &Option<List>, mode: Mode, n: usize, out: &mut [u8], at: usize) -> usize
    requires known_size { 0 < n → T (is_size n) }
    requires n_in_bounds { at + 20 * (n * n) ≤ length out.old }
    ensures { WroteUpTo out.old at (block_lines (list_in list.now) mode n) out.new result (at + 20 * (n * n)) }
{
    let mut end = at;
    for i in 0..n * n {
        end = put_line(list, mode, n, i, out, end);
    }
    end
}
