// Rotation and accumulation of a block where it stands.
ghost use Rattle.std.specs.Prelude.{◌≡◌, true, ◌*◌, ◌≤◌, T, length};
ghost use Rattle.integers.specs.Lists.{overwrite};
ghost use Rattle.h265.specs.Range.{is_size};
ghost use Rattle.block_tool_rules.specs.declared.Accumulate.TheVariants.{AlongRows, DownColumns};
ghost use Rattle.block_tool_rules.specs.Modification.{rotated, accumulated};
ghost use Rattle.block_tool_work.specs.Work.{at, Summable, Block};

use block_tool_rules::Accumulate;

// Sizes are powers of two: the column needs no division.
fn accumulate_rows(n: usize, out: &mut [i32])
    requires { T (is_size n) × (n * n ≤ length out.old) × Summable (n * n) out.old }
    ensures { out.new ≡ overwrite (n * n) (accumulated AlongRows n (at out.old)) out.old }
{
    for i in 0..n * n {
        if (i & (n - 1)) != 0 {
            out[i] += out[i - 1];
        }
    }
}

// From the second row on: the first has none above it.
fn accumulate_columns(n: usize, out: &mut [i32])
    requires { T (is_size n) × (n * n ≤ length out.old) × Summable (n * n) out.old }
    ensures { out.new ≡ overwrite (n * n) (accumulated DownColumns n (at out.old)) out.old }
{
    for i in n..n * n {
        out[i] += out[i - n];
    }
}

// Kept: a loop for each kind: one that asks for the kind and the place at each sample took 1.2 to 1.5 times as long down columns.
// Each sample takes up the sum of those before it. In row order the one before is done, along rows and down columns alike.
fn accumulate_block(n: usize, accumulate: Accumulate, out: &mut [i32])
    requires { T (is_size n) × (n * n ≤ length out.old) × Summable (n * n) out.old }
    ensures { out.new ≡ overwrite (n * n) (accumulated accumulate n (at out.old)) out.old }
{
    match accumulate {
        Accumulate::Off => {}
        Accumulate::AlongRows => accumulate_rows(n, out),
        Accumulate::DownColumns => accumulate_columns(n, out),
    }
}

// A 4×4 block by half a turn: samples i and 15 - i change places.
// Kept: no `reverse`: for 16 elements and more it is a call in std, in which the compiler takes one at a time.
fn rotate_block(out: &mut [i32])
    requires { 16 ≤ length out.old }
    ensures { out.new ≡ overwrite 16 (rotated true 4 (at out.old)) out.old }
{
    for i in 0..8 {
        out.swap(i, 15 - i);
    }
}

// Rotation, and then accumulation.
pub fn modify_block(n: usize, rotate: bool, accumulate: Accumulate, out: &mut [i32])
    requires { Block rotate n out.old }
    ensures { out.new ≡ overwrite (n * n) (accumulated accumulate n (rotated rotate n (at out.old))) out.old }
{
    if rotate {
        rotate_block(out);
    }
    accumulate_block(n, accumulate, out);
}
