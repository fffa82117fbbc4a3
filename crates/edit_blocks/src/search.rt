// The tables that a search reads.
ghost use Rattle.std.specs.Prelude.{length};
ghost use Rattle.edit_blocks.specs.Needs.{tables, TablesNeeds};

// What the search over one block reads: its tables, the target, which samples are wanted, and the numbers that all samples share.
// Kept: the tables are lent; as arrays of its own they were tried and proved, and the copies took 40 KB of stack more than include/residual.h allows a search.
#[derive(Clone, Copy)]
pub(crate) struct Search<'a> {
    pub(crate) matrix: &'a [i64; 1024],
    pub(crate) coeff: &'a [i64; 1024],
    pub(crate) ones: &'a [i64; 1024],
    pub(crate) between: &'a [i64; 1024],
    pub(crate) twos: &'a [i64; 1024],
    pub(crate) target: &'a [i32],
    pub(crate) wanted: &'a [u8],
    pub(crate) n: usize,
    pub(crate) range: u32,
    pub(crate) shift: u32,
    ghost ready: { TablesNeeds (tables matrix.now coeff.now ones.now between.now twos.now target.now) n range shift (length wanted.now) },
}
