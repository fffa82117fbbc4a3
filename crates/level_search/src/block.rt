// The levels of a block, below the refusals 1 to 7. They are found before the first is written, so that a refused call leaves the buffer as it was lent.
ghost use Rattle.std.specs.Prelude.{◌≡◌, ◌*◌, ◌/◌, ◌%◌, ◌<◌, ◌≤◌, T, length};
ghost use Rattle.h265.specs.Range.{is_size};
ghost use Rattle.refusal.specs.declared.Refusal.TheVariants.{LevelMissing};
ghost use Rattle.refusal.specs.Written.{Writes};
ghost use Rattle.scaling_values.specs.Factor.{WholeList};
ghost use Rattle.scaling_values.specs.Given.{list_of, entries_of};
ghost use Rattle.scaling_values.specs.Work.{Room};
ghost use Rattle.level_search.specs.Found.{block_found};
ghost use Rattle.level_search.specs.Work.{first_miss, nearest_at, Invertible, Searched};

use crate::nearest;
use parameters::DequantParams;
use refusal::Refusal;
use scaling_values::ScalingList;
use scaling_values::factor::factor_at;

// Kept: coefficients, size, numbers and list apart, here and below, with Invertible, WholeList and Room as clauses: a struct of them would be made for the one call of find_block and
// opened at each index; one with the lent levels would have to promise too that it stays the same one (its ghost_name).
// The levels of a block up to the first coefficient that no level gives, whose index is the result.
fn search(
    coeff: &[i32],
    n: usize,
    by: DequantParams,
    list: ScalingList,
    found: &mut [i32; 1024],
) -> Option<usize>
    requires invertible { Invertible by }
    requires whole_list { WholeList (entries_of (list_of list)) n }
    requires n_in_bounds { n * n ≤ length coeff.now }
    ensures { Searched by (list_of list.entry) n coeff.now found.old found.new result }
{
    for i in 0..n * n {
        let m = factor_at(list, n, i);
        let level = nearest::nearest(coeff[i], m, by);
        if !nearest::scales_to(level, coeff[i], m, by) {
            return Some(i);
        }
        found[i] = level;
    }
    None
}

// Row 11 at an index.
fn missing_at(n: usize, index: usize) -> Refusal
    requires t { T (is_size n) }
    requires index_bound { index < n * n }
    ensures { result ≡ LevelMissing (index / n) (index % n) }
{
    let row = (index / n) as u8;
    let column = (index % n) as u8;
    Refusal::LevelMissing(row, column)
}

// The levels of a block, or row 11.
pub(crate) fn find_block(
    coeff: &[i32],
    n: usize,
    by: DequantParams,
    list: ScalingList,
    levels: &mut [i32],
) -> Result<(), Refusal>
    requires invertible { Invertible by }
    requires whole_list { WholeList (entries_of (list_of list)) n }
    requires room { Room (n * n) (length coeff.now) (length levels.old) }
    ensures { Writes result levels.new (block_found n (first_miss by (list_of list.entry) n coeff.now) (nearest_at by (list_of list.entry) n coeff.now) levels.old) }
{
    let mut found = [0i32; 1024];
    if let Some(index) = search(coeff, n, by, list, &mut found) {
        return Err(missing_at(n, index));
    }
    let count = n * n;
    levels[..count].copy_from_slice(&found[..count]);
    Ok(())
}
