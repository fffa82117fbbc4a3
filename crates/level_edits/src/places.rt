// The levels that scale to a range of coefficients. Scaling keeps the order, so that both ends are found by halves.
ghost use Rattle.std.specs.Prelude.{◌≡◌, true, false, ◌≤◌};
ghost use Rattle.edit_values.specs.Values.{value_count};
ghost use Rattle.edit_values.specs.Sample.{Split};
ghost use Rattle.scaling_values.specs.Level.{listed_level, Manageable};
ghost use Rattle.level_search.specs.Work.{Invertible};
ghost use Rattle.level_edits.specs.Work.{beyond, LevelSpan};

use edit_values::Span;
use parameters::DequantParams;
use scaling_values::level;

// One level, scaled.
// Kept: m apart from the numbers of the block: it is another one at each index of a list, and they are the same throughout.
pub(crate) fn scaled_value(given: i32, m: u8, by: DequantParams) -> i32
    requires { Manageable by }
    ensures { result ≡ listed_level by m given }
{
    let scaled = level::scaled_listed(given, m, by);
    scaled.value
}

// Whether the level at a place scales to `end` or above; strict: above.
// Kept: the range is a number with its bound, here and below, as in coefficients; Manageable is a clause, as in scaling_values, and Invertible, as in level_search.
// Kept: `strict` is a yes or a no, and a bool says that; an enum of two names would be matched at the same place.
// Kept: `as i32`: the value at a place fits 32 bits, and `try_from` would give a branch for an error that never comes.
fn beyond(m: u8, by: DequantParams, range: u32, end: i32, strict: bool, place: u32) -> bool
    requires { Manageable by × (range ≤ 22) × (place ≤ 8388608) }
    ensures { result ≡ beyond (listed_level by m) range end strict place }
{
    let x = scaled_value(edit_values::value_at(range, place) as i32, m, by);
    if strict {
        return end < x;
    }
    end <= x
}

// The first place that does, and one past the last where none does.
fn first_beyond(m: u8, by: DequantParams, range: u32, end: i32, strict: bool) -> u32
    requires { Invertible by × (range ≤ 22) }
    ensures { Split (beyond (listed_level by m) range end strict) 0 (value_count range) result }
{
    let mut low: u32 = 0;
    let mut high: u32 = 2u32 << range;
    // Kept: a search by halves, as `halve` of edit_values; one loop of both would take its test as a closure, and clauses on what that answers at every place, longer than the loop.
    while low < high {
        let middle = (low + high) / 2;
        if beyond(m, by, range, end, strict, middle) {
            high = middle;
        } else {
            low = middle + 1;
        }
    }
    low
}

// The places whose levels scale to low .. high.
pub(crate) fn level_span(m: u8, by: DequantParams, range: u32, low: i32, high: i32) -> Span
    requires { Invertible by × (range ≤ 22) }
    ensures { LevelSpan (listed_level by m) range low high result }
{
    let from = first_beyond(m, by, range, low, false);
    let to = first_beyond(m, by, range, high, true);
    Span { from, to }
}
