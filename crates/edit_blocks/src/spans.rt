// The values of one coefficient that give the target at every wanted sample: sample by sample the places of the range that are left.
ghost use Rattle.std.specs.Prelude.{◌≡◌, ◌+◌, ◌*◌, ◌<◌, ◌≤◌, length, pos, ◌+ℤ◌, ◌-ℤ◌, ◌*ℤ◌};
ghost use Rattle.integers.specs.Lists.{overwrite};
ghost use Rattle.integers.specs.Within.{Within};
ghost use Rattle.h265.specs.Transform.{block_at};
ghost use Rattle.edit_values.specs.Values.{value_count};
ghost use Rattle.edit_blocks.specs.Work.{tables_of, probe_at, hits_of, Sieved, least_of, most_of, least_by, most_by};

use crate::search::Search;
use edit_values::{Probe, Span};

// What stands at a row and a column of a table.
// Kept: tables of the largest size with n beside them: there is no heap, and n stands once for all tables of a block.
// Kept: a row and a column are two numbers, here and below: a struct of both could not hold that they are below n, which the search has, and every contract would say it as now.
fn cell(x: &[i64; 1024], n: usize, row: usize, column: usize) -> i64
    requires { (n ≤ 32) × (row < n) × (column < n) }
    ensures { result ≡ block_at n x.now row column }
{
    x[row * n + column]
}

// What stands at a row and a column of the target.
// Kept: beside `cell`: the target is 32 bits wide and lent as a slice, so that its length is asked and a bound promised.
fn target_cell(x: &[i32], n: usize, row: usize, column: usize) -> i64
    requires { (n ≤ 32) × (row < n) × (column < n) × (n * n ≤ length x.now) }
    ensures { (result ≡ block_at n x.now row column) × Within 2147483648 result }
{
    i64::from(x[row * n + column])
}

// A sum without the product of an entry and a value.
fn without(sum: i64, entry: i64, value: i64) -> i64
    requires { Within 12079595520 sum × Within 90 entry × Within 4194304 value }
    ensures { result ≡ sum +ℤ (pos 0 -ℤ entry) *ℤ value }
{
    edit_values::mac(sum, -entry, value)
}

// What a sample has of everything but the coefficient's value: both sums without the coefficient's own product.
fn probe_at(search: &Search, k: usize, c: usize, m: usize, j: usize) -> Probe
    requires { (k < search.now.n) × (c < search.now.n) × (m < search.now.n) × (j < search.now.n) }
    ensures { (result ≡ probe_at (tables_of search.now) search.now.n search.now.range search.now.shift k c m j) × Within 2147483648 result.target }
{
    let n = search.n;
    let entry_one = cell(search.matrix, n, k, m);
    let entry_two = cell(search.matrix, n, c, j);
    Probe {
        range: search.range,
        shift: search.shift,
        entry_one,
        rest_one: without(
            cell(search.ones, n, m, c),
            entry_one,
            cell(search.coeff, n, k, c),
        ),
        entry_two,
        rest_two: without(
            cell(search.twos, n, m, j),
            entry_two,
            cell(search.between, n, m, c),
        ),
        target: target_cell(search.target, n, m, j),
    }
}

// The places of a span that hit the sample at row m and column j.
fn sample_span(search: &Search, k: usize, c: usize, m: usize, j: usize, span: Span) -> Span
    requires { (k < search.now.n) × (c < search.now.n) × (m < search.now.n) × (j < search.now.n) × (span.from ≤ span.to) × (span.to ≤ value_count search.now.range) }
    ensures { Sieved search.now.range (hits_of search.now k c) (m * search.now.n + j) (m * search.now.n + j + 1) span.from span.to result }
{
    if search.wanted[m * search.n + j] == 0 {
        return span;
    }
    if span.is_empty() {
        return span;
    }
    edit_values::narrow(probe_at(search, k, c, m, j), span)
}

// The places of a span that hit the samples of row m.
fn row_span(search: &Search, k: usize, c: usize, m: usize, span: Span) -> Span
    requires { (k < search.now.n) × (c < search.now.n) × (m < search.now.n) × (span.from ≤ span.to) × (span.to ≤ value_count search.now.range) }
    ensures { Sieved search.now.range (hits_of search.now k c) (m * search.now.n) (m * search.now.n + search.now.n) span.from span.to result }
{
    let mut left = span;
    for j in 0..search.n {
        left = sample_span(search, k, c, m, j, left);
    }
    left
}

// All places of the range.
fn whole(range: u32) -> Span
    requires { range ≤ 22 }
    ensures { (result.from ≡ 0) × (result.to ≡ value_count range) }
{
    Span {
        from: 0,
        to: 2u32 << range,
    }
}

// The places of the range that hit every wanted sample, for the coefficient at row k and column c.
fn index_span(search: &Search, k: usize, c: usize) -> Span
    requires { (k < search.now.n) × (c < search.now.n) }
    ensures { Sieved search.now.range (hits_of search.now k c) 0 (search.now.n * search.now.n) 0 (value_count search.now.range) result }
{
    let mut left = whole(search.range);
    for m in 0..search.n {
        if left.is_empty() {
            return left;
        }
        left = row_span(search, k, c, m, left);
    }
    left
}

// The first value of a span, and 1 where it is empty.
// Kept: `as i32` here and below: a value of the range is within 2^22, and `try_from` would give a branch for an error that never comes.
// Kept: two functions for the two ends, since each reads its own place and has its own number for none; one of both would hand out a pair that the callers take apart.
pub fn least_of(range: u32, span: Span) -> i32
    requires { (range ≤ 22) × (span.to ≤ value_count range) }
    ensures { result ≡ least_of range span }
{
    if span.is_empty() {
        return 1;
    }
    edit_values::value_at(range, span.from) as i32
}

// The last value of a span, and 0 where it is empty.
pub fn most_of(range: u32, span: Span) -> i32
    requires { (range ≤ 22) × (span.to ≤ value_count range) }
    ensures { result ≡ most_of range span }
{
    if span.is_empty() {
        return 0;
    }
    edit_values::value_at(range, span.to - 1) as i32
}

// The least and the most value at every index.
pub(crate) fn all_indices(search: &Search, least: &mut [i32], most: &mut [i32])
    requires { (search.now.n * search.now.n ≤ length least.old) × (search.now.n * search.now.n ≤ length most.old) }
    ensures { (least.new ≡ overwrite (search.now.n * search.now.n) (least_by (tables_of search.now) search.now.wanted.now search.now.n search.now.range search.now.shift) least.old) × (most.new ≡ overwrite (search.now.n * search.now.n) (most_by (tables_of search.now) search.now.wanted.now search.now.n search.now.range search.now.shift) most.old) }
{
    let n = search.n;
    for i in 0..n * n {
        let span = index_span(search, i / n, i % n);
        let low = least_of(search.range, span);
        let high = most_of(search.range, span);
        least[i] = low;
        most[i] = high;
    }
}
