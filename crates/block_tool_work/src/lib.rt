// What the block tools stand on: rotation and accumulation of a block where it stands, their refusals, and levels copied as they are.
#![tactic(auto)]

ghost use Rattle.std.specs.Prelude.{◌≡◌, ◌≤◌, length};
ghost use Rattle.integers.specs.Lists.{overwrite};
ghost use Rattle.block_tool_work.specs.Work.{at};

pub mod modify;
pub mod refuse;

// The first levels, as they are.
// Kept: a loop and no `copy_from_slice`: of two lent slices that is a call of `memmove`, which the archive for C would need from outside.
pub fn copy_levels(levels: &[i32], count: usize, out: &mut [i32])
    requires { (count ≤ length levels.now) × (count ≤ length out.old) }
    ensures { out.new ≡ overwrite count (at levels.now) out.old }
{
    for i in 0..count {
        out[i] = levels[i];
    }
}
