// The entries of a list laid out as a block of size 16 or 32 has them, so that one loop serves every size.
ghost use Rattle.std.specs.Prelude.{◌≡◌, ◌+◌, ◌*◌, ◌<◌, ◌≤◌, length};
ghost use Rattle.h265.specs.ScalingFactor.{scaling_factor};
ghost use Rattle.h265.specs.ScalingFactor.ScalingList.{listed};
ghost use Rattle.scaling_values.specs.Factor.{WholeList};
ghost use Rattle.scaling_values.specs.Work.{spread_at, Fills};
ghost use Rattle.scaling_blocks.specs.Spread.{Laid, Copied};

// A row by the list.
// Kept: list, size and repeats apart, here and below, with `Laid` as a clause: a struct with the lent entries would have to promise that they stay the same ones (its ghost_name).
fn spread_row(list: &[u8], row: usize, n: usize, repeats: u32, entries: &mut [u8])
    requires laid { Laid (length list.now) n repeats (length entries.old) }
    requires row_lt_n { row < n }
    ensures { Fills (spread_at list.now n) (row * n) (row * n + n) entries.old entries.new }
{
    let at = row * n;
    let entry = (row >> repeats) * 8;
    for c in 0..n {
        entries[at + c] = list[entry + (c >> repeats)];
    }
}

// A row that has the entries of the row above it, copied.
// Kept: a loop: `copy_within` moves one entry at a time, and `copy_from_slice` between two parts of a slice is a call of `memmove`, which the archive for C would need from outside.
fn copy_row(row: usize, n: usize, entries: &mut [u8])
    requires n_in_bounds { n * n ≤ length entries.old }
    requires le_row { (1 ≤ row) × (row < n) }
    requires n_bound { n ≤ 32 }
    ensures { Copied n row n entries.old entries.new }
{
    let at = row * n;
    let above = at - n;
    for c in 0..n {
        entries[at + c] = entries[above + c];
    }
}

// One row after those above it: the first of the rows that share their entries is laid out by the list.
fn next_row(list: &[u8], row: usize, n: usize, repeats: u32, entries: &mut [u8])
    requires laid { Laid (length list.now) n repeats (length entries.old) }
    requires row_lt_n { row < n }
    ensures { Fills (spread_at list.now n) (row * n) (row * n + n) entries.old entries.new }
{
    if (row >> repeats) << repeats == row {
        spread_row(list, row, n, repeats, entries);
        return;
    }
    copy_row(row, n, entries);
}

// Its rows.
fn spread_rows(list: &[u8], n: usize, repeats: u32, entries: &mut [u8])
    requires { Laid (length list.now) n repeats (length entries.old) }
    ensures { Fills (spread_at list.now n) 0 (n * n) entries.old entries.new }
{
    for row in 0..n {
        next_row(list, row, n, repeats, entries);
    }
}

// The m of every index: the entries, and the DC number at index 0.
pub(crate) fn spread(list: &[u8], n: usize, dc: u8, entries: &mut [u8])
    requires n_in_bounds { n * n ≤ length entries.old }
    requires whole_list { WholeList (length list.now) n }
    requires le_n { 16 ≤ n }
    ensures { Fills (scaling_factor (listed list.now dc) n) 0 (n * n) entries.old entries.new }
{
    spread_rows(list, n, n.ilog2() - 3, entries);
    entries[0] = dc;
}
