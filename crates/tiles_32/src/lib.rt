// The stage over a 32 × 32 block on 16-bit data.
// Internal: no refusal; callers meet each `requires`.
#![tactic(auto)]

ghost use Rattle.std.proofs.Common.{rules};

use tiles::{Input, Line, Output, Stage, lines_as_rows, parts_as_rows};
use vectors::{Sums, Values};

// Kept: an impl for each size, as in `tiles`.
#[derive(Clone, Copy)]
pub struct Whole32;

impl Line<32, 32> for Whole32 {
    #[inline(always)]
    fn line(x: &[Values; 32], r: Sums) -> [Sums; 32] {
        lines::line_32(&x[..], r)
    }
}

impl Stage for Whole32 {
    const POINTS: usize = 32;

    ghost POINTS = { 32 };

    const ROWS: usize = 32;

    ghost ROWS = { 32 };

    fn stage<I: Input, T: Output>(a: &[I], count: usize, half: i32, s: u32, out: &mut [T]) {
        lines_as_rows::<Whole32, I, T, 32, 32>(a, count, half, s, out);
    }

    fn parts(s: &[i32], k: u32, count: usize, half: i32, by: u32, out: &mut [i32]) {
        parts_as_rows::<Whole32, 32, 32>(s, k, count, half, by, out);
    }

    ghost size = { Prim.search rules };
}
