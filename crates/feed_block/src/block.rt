// One block: from levels to the residual, by the parameters and the list in force.
ghost use Rattle.std.specs.Prelude.{◌≡◌, ◌*◌, ◌≤◌, pos, length};
ghost use Rattle.h265.specs.TransformSkip.{skipped_at};
ghost use Rattle.h265.specs.Limited.{limited_count};
ghost use Rattle.block_rules.specs.Edit.{buffers};
ghost use Rattle.feed_format.specs.Format.{levels_of};
ghost use Rattle.feed_rules.specs.Block.{list_for, residual_at, block_limited, list_in};
ghost use Rattle.feed_block.specs.Work.{Accepted, Leaves, OpensBlock};

use feed_format::{LevelBytes, Mode, Parameters};
use feed_state::{State, list_for, scaling_list};
use level_block::LevelsOpened;
use parameters::QpPrime;
use scaling_blocks::blocks;

// The residual of a block by transform skip, and how many coefficients were limited.
// Kept: state, parameters and size apart, and below state, parameters and body: the size comes from the record's kind, which says it before the parameters are known to fit it, and the laws take each by itself.
fn skip(s: State, p: Parameters, n: usize, levels: &[i32], out: &mut [i32]) -> u16
    requires accepted { Accepted p n }
    requires n_in_bounds { n * n ≤ length levels.now }
    requires n_in_bounds_2 { n * n ≤ length out.old }
    ensures { Leaves (limited_count (list_for Mode.Skip n (list_in s.list)) n p.precision.bit_depth p.precision.extended (pos p.qp_prime) levels.now) (skipped_at (list_for Mode.Skip n (list_in s.list)) n p.precision.bit_depth p.precision.extended (pos p.qp_prime) levels.now) (n * n) out.old out.new result }
{
    let qp_prime = QpPrime(i32::from(p.qp_prime));
    let list = list_for(&s.list, Mode::Skip, n);
    blocks::transform_skip(levels, n, qp_prime, p.precision, list, out).unwrap()
}

// The residual of a body's levels by transform skip, and how many coefficients were limited.
pub fn skip_body(s: State, p: Parameters, body: LevelBytes, out: &mut [i32]) -> u16
    requires accepted { Accepted p body.size × (p.mode ≡ Mode.Skip) }
    requires n_in_bounds { body.size * body.size ≤ length out.old }
    ensures { let n = body.entry.size in Leaves (block_limited (list_in s.list) p n (levels_of n body.entry.bytes.now)) (residual_at (list_in s.list) p n (levels_of n body.entry.bytes.now)) (n * n) out.old out.new result }
{
    let n = body.size;
    let mut levels = [0i32; 1024];
    body.read(&mut levels);
    skip(s, p, n, &levels[..n * n], out)
}

// Opens a block on a body's levels, with the list in force: its levels and all that follows from them go to the lent buffers.
// Kept: the four buffers apart: a struct of lent slices would have to promise for each that it stays the same one (its ghost_name), and a struct of four arrays would be filled by a copy, since `feed::step` is lent slices.
pub fn open_body(
    s: State,
    p: Parameters,
    kind: transform_1d::Kind,
    body: LevelBytes,
    levels: &mut [i32],
    coeff: &mut [i32],
    inter: &mut [i32],
    residual: &mut [i32],
) -> LevelsOpened
    requires accepted { Accepted p body.size × (p.mode ≡ Mode.Transform kind) }
    requires n_in_bounds { let n = body.size in (n * n ≤ length levels.old) × (n * n ≤ length coeff.old) × (n * n ≤ length inter.old) × (n * n ≤ length residual.old) }
    ensures { OpensBlock (list_in s.list) p kind body.entry.size body.entry.bytes.now levels.old (buffers coeff.old inter.old residual.old) result levels.new coeff.new inter.new residual.new }
{
    body.read(levels);
    let qp_prime = QpPrime(i32::from(p.qp_prime));
    let list = scaling_list(&s.list);
    level_block::open_levels(
        kind,
        body.size,
        p.precision,
        qp_prime,
        list,
        levels,
        coeff,
        inter,
        residual,
    )
    .unwrap()
}
