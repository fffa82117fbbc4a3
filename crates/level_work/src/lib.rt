// What the calls on levels stand on: the refusals that they share, a level scaled by the record's source, and a list as the record keeps it.
#![tactic(auto)]

ghost use Rattle.std.specs.Prelude.{◌≡◌, Bool, ◌*◌, ◌<◌, length};
ghost use Rattle.h265.specs.ScalingFactor.{scaling_factor};
ghost use Rattle.refusal.specs.Condition.{size_refused, depth_refused};
ghost use Rattle.block_rules.specs.Level.{looked_at, source_by};
ghost use Rattle.block_rules.specs.Level.{list_of as list_of_source};
ghost use Rattle.scaling_values.specs.Given.{list_of, entries_of};
ghost use Rattle.level_work.specs.Work.{Scaled};

use block_rules::Source;
use parameters::QpPrime;
use refusal::Precision;
use scaling_values::factor::factor_at;
use scaling_values::{ScaledLevel, ScalingList};

pub mod refuse;

// m at an index of a block, by its source.
pub fn factor_of(source: Source, n: usize, index: usize) -> u8
    requires { (size_refused n ≡ Bool.false) × (index < n * n) }
    ensures { result ≡ scaling_factor (list_of_source source) n index }
{
    let entries = source.entries;
    let list = if source.listed {
        ScalingList::Listed(&entries, source.dc)
    } else {
        ScalingList::Flat
    };
    factor_at(list, n, index)
}

// The coefficient that a level at an index gives, and what was limited.
pub fn coefficient_of(
    source: Source,
    n: usize,
    precision: Precision,
    index: usize,
    level: i32,
) -> ScaledLevel
    requires { (size_refused n ≡ Bool.false) × (depth_refused precision.bit_depth ≡ Bool.false) × (index < n * n) }
    ensures { Scaled result source n precision.bit_depth precision.extended index level }
{
    let m = factor_of(source, n, index);
    let qp_prime = source.qp_prime;
    scaling::scale_level(level, m, n, qp_prime, precision).unwrap()
}

// The length that row 6 looks at: of the level buffer where the block was opened on levels.
pub fn looked_at(on: bool, levels: usize, coeff: usize) -> usize
    ensures { result ≡ looked_at on levels coeff }
{
    if on { levels } else { coeff }
}

// What the record of a block keeps of what its levels are scaled by.
pub fn source_of(qp_prime: QpPrime, list: ScalingList) -> Source
    requires { entries_of (list_of list) ≡ 64 }
    ensures { result ≡ source_by qp_prime.0 (list_of list.entry) }
{
    match list {
        ScalingList::Flat => Source {
            levels: true,
            qp_prime,
            listed: false,
            dc: 0,
            entries: [0u8; 64],
        },
        ScalingList::Listed(entries, dc) => Source {
            levels: true,
            qp_prime,
            listed: true,
            dc,
            entries: kept(entries),
        },
    }
}

// The entries of a list, for the record to keep.
fn kept(list: &[u8]) -> [u8; 64]
    requires { length list.now ≡ 64 }
    ensures { result ≡ list.now }
{
    let mut entries = [0u8; 64];
    entries.copy_from_slice(list);
    entries
}
