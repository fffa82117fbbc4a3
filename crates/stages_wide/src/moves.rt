// Blocks turned over, and columns taken and put: a stage reads columns and writes rows.
ghost use Rattle.std.specs.Prelude.{◌≡◌, Bool, true, false, ℕ, ◌+◌, ◌*◌, ◌<◌, ◌≤◌, pos, length, get_or, map};
ghost use Rattle.std.specs.Int.{w16};
ghost use Rattle.std.proofs.Common.{SFits};
ghost use Rattle.transform_1d.specs.Rows.{Placed, Filled};
ghost use Rattle.integers.specs.Within.{Narrow};
ghost use Rattle.stages_wide.specs.Parts.{limited_at, ColumnOf, ColumnPlaced, NarrowColumn};

use crate::parts::limited;
use tiles::Output;
use wide_parts::is_wide;

// What a block is moved into: values as they are, or in 16 bits where they fit them.
// Kept: beside `Output::of`, which limits a sum to 16 bits: a value that is moved stays as it is, and that it fits is asked.
pub trait Moved: Output {
    // Whether it is 16 bits wide.
    ghost short: { Bool };

    fn moved(x: i32) -> Self
        requires { short ≡ true → SFits w16 x }
        ensures { Self.value result ≡ x };
}

impl Moved for i32 {
    ghost short = { false };

    #[inline(always)]
    fn moved(x: i32) -> i32 {
        x
    }
}

impl Moved for i16 {
    ghost short = { true };

    #[inline(always)]
    fn moved(x: i32) -> i16 {
        x as i16
    }
}

// One column of a block, as row c of g.
// Kept: c beside the slices: it is the column of s, and of g cut to its row it would be asked all the same.
fn turn_column<V: Moved>(s: &[i32], n: usize, c: usize, g: &mut [V])
    requires { ColumnOf n c (length s.now) × (n * n ≤ length g.old) × (V.short ≡ true → Narrow (n * n) s.now) }
    ensures { Placed (c * n) n (λ k. get_or s.now (k * n + c) (pos 0)) (map V.value g.old) (map V.value g.new) }
{
    for k in 0..n {
        g[c * n + k] = V::moved(s[k * n + c]);
    }
}

// A block turned over.
pub fn turn<V: Moved>(s: &[i32], n: usize, g: &mut [V])
    requires { (n ≤ 32) × (n * n ≤ length s.now) × (n * n ≤ length g.old) × (V.short ≡ true → Narrow (n * n) s.now) }
    ensures { Filled n n (λ c k. get_or s.now (k * n + c) (pos 0)) n (map V.value g.old) (map V.value g.new) }
{
    for c in 0..n {
        turn_column(s, n, c, g);
    }
}

// `true` only where the values of one column all fit 16 bits; `false` says nothing.
// Kept: a loop with no early end, of which the compiler tests several values at a time; `all`, compiled, tests one at a time.
pub fn column_narrow(s: &[i32], n: usize, column: usize) -> bool
    requires { ColumnOf n column (length s.now) }
    ensures { result ≡ true → NarrowColumn n column n s.now }
{
    let mut fits = true;
    for k in 0..n {
        if is_wide(s[k * n + column]) {
            fits = false;
        }
    }
    fits
}

// Kept: a function for each direction: a run along a row and one down a column are said by two relations, `Placed` and `ColumnPlaced`.
// One column of a block, as the first column of g.
pub fn take_column<V: Moved>(s: &[i32], n: usize, column: usize, g: &mut [V])
    requires { ColumnOf n column (length s.now) × (n * n ≤ length g.old) × (V.short ≡ true → NarrowColumn n column n s.now) }
    ensures { ColumnPlaced n 0 (λ k. get_or s.now (k * n + column) (pos 0)) n (map V.value g.old) (map V.value g.new) }
{
    for k in 0..n {
        g[k * n] = V::moved(s[k * n + column]);
    }
}

// The values of one column, limited.
pub fn limited_column(s: &[i32], n: usize, range: u32, column: usize, x: &mut [i32])
    requires { (range ≤ 22) × ColumnOf n column (length s.now) × (n ≤ length x.old) }
    ensures { Placed 0 n (λ k. limited_at range s.now (k * n + column)) x.old x.new }
{
    for k in 0..n {
        x[k] = limited(s[k * n + column], range);
    }
}

// The values of r, limited, down one column of a block of as many rows.
pub fn put_column(r: &[i32], range: u32, inter: &mut [i32], column: usize)
    requires { (range ≤ 22) × ColumnOf (length r.now) column (length inter.old) }
    ensures { ColumnPlaced (length r.now) column (limited_at range r.now) (length r.now) inter.old inter.new }
{
    let n = r.len();
    for m in 0..n {
        inter[m * n + column] = limited(r[m], range);
    }
}

// All rows of g, limited, as columns.
pub fn put_columns(g: &[i32], n: usize, range: u32, inter: &mut [i32])
    requires { (range ≤ 22) × (n ≤ 32) × (n * n ≤ length g.now) × (n * n ≤ length inter.old) }
    ensures { Filled n n (λ m c. limited_at range g.now (c * n + m)) n inter.old inter.new }
{
    for c in 0..n {
        put_column(&g[c * n..c * n + n], range, inter, c);
    }
}
