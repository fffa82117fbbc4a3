// m at an index of a block, and the rule that supplies it.
ghost use Rattle.std.specs.Prelude.{◌≡◌, ◌*◌, ◌<◌, T};
ghost use Rattle.h265.specs.Range.{is_size};
ghost use Rattle.feed_rules.specs.Block.{list_in};
ghost use Rattle.scale_trace_rules.specs.Block.{block_factor};
ghost use Rattle.scale_trace_block.specs.Work.{SourceAt};

use crate::Source;
use feed_format::{List, Mode};
use scaling_values::factor::factor_at;

// The rule at an index.
// Kept: a position by the numbers of each size: a division by a size that is a variable takes some twenty times a shift, and there are four for each line.
// Kept: list, mode and size apart, here and in `line_text`: theorems and definitions take them one by one, and a struct of the three would be taken apart in each contract. An index stays a number and its bound a clause, since a loop counts it, and so does a position, since an enum has no ghost field.
#[tactic(auto, using(crate::proofs::RuleLaws::source_none, crate::proofs::RuleLaws::source_skip, crate::proofs::RuleLaws::source_four, crate::proofs::RuleLaws::source_eight, crate::proofs::RuleLaws::source_dc, crate::proofs::RuleLaws::source_repeat, crate::proofs::RuleLaws::position_16, crate::proofs::RuleLaws::position_32, h265::proofs::RangeLaws::size_else))]
pub(crate) fn source_of(list: &Option<List>, mode: Mode, n: usize, index: usize) -> Source
    requires { T (is_size n) × (index < n * n) }
    ensures { SourceAt (list_in list.now) mode n index result }
{
    let Some(_) = list else {
        return Source::None;
    };
    if feed_format::list_ignored(mode, n) {
        return Source::Skip;
    }
    if n == 4 {
        return Source::Four(index);
    }
    if n == 8 {
        return Source::Eight(index);
    }
    if index == 0 {
        return Source::Dc;
    }
    if n == 16 {
        return Source::Repeat(index / 16 / 2 * 8 + index % 16 / 2);
    }
    Source::Repeat(index / 32 / 4 * 8 + index % 32 / 4)
}

// m as scaling has it.
#[tactic(auto, unfolding(scale_trace_rules::specs::Block::block_factor))]
pub(crate) fn factor_of(list: &Option<List>, mode: Mode, n: usize, index: usize) -> u8
    requires { T (is_size n) × (index < n * n) }
    ensures { result ≡ block_factor (list_in list.now) mode n index }
{
    factor_at(feed_state::list_for(list, mode, n), n, index)
}
