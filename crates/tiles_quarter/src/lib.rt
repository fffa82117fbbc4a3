// The stages of 8, 16 and 32 points over blocks of which only the first 4, 4 and 8 rows are there: the others are zero.
// Internal: no refusal; callers meet each `requires`.
#![tactic(auto)]

ghost use Rattle.std.proofs.Common.{rules};

use tiles::{Input, Line, Output, Stage, lines_as_rows, parts_as_rows};
use vectors::{Sums, Values};

mod rest; // whether a block ends after its first rows

pub use rest::rest_zero;

// Kept: an impl for each size, as in `tiles`.
#[derive(Clone, Copy)]
pub struct Quarter8;

impl Line<4, 8> for Quarter8 {
    #[inline(always)]
    fn line(x: &[Values; 4], r: Sums) -> [Sums; 8] {
        lines::line_8(&x[..], 1, r)
    }
}

impl Stage for Quarter8 {
    const POINTS: usize = 8;

    ghost POINTS = { 8 };

    const ROWS: usize = 4;

    ghost ROWS = { 4 };

    fn stage<I: Input, T: Output>(a: &[I], count: usize, half: i32, s: u32, out: &mut [T]) {
        lines_as_rows::<Quarter8, I, T, 4, 8>(a, count, half, s, out);
    }

    fn parts(s: &[i32], k: u32, count: usize, half: i32, by: u32, out: &mut [i32]) {
        parts_as_rows::<Quarter8, 4, 8>(s, k, count, half, by, out);
    }

    ghost size = { Prim.search rules };
}

#[derive(Clone, Copy)]
pub struct Quarter16;

impl Line<4, 16> for Quarter16 {
    #[inline(always)]
    fn line(x: &[Values; 4], r: Sums) -> [Sums; 16] {
        lines::line_16(&x[..], 1, r)
    }
}

impl Stage for Quarter16 {
    const POINTS: usize = 16;

    ghost POINTS = { 16 };

    const ROWS: usize = 4;

    ghost ROWS = { 4 };

    fn stage<I: Input, T: Output>(a: &[I], count: usize, half: i32, s: u32, out: &mut [T]) {
        lines_as_rows::<Quarter16, I, T, 4, 16>(a, count, half, s, out);
    }

    fn parts(s: &[i32], k: u32, count: usize, half: i32, by: u32, out: &mut [i32]) {
        parts_as_rows::<Quarter16, 4, 16>(s, k, count, half, by, out);
    }

    ghost size = { Prim.search rules };
}

#[derive(Clone, Copy)]
pub struct Quarter32;

impl Line<8, 32> for Quarter32 {
    #[inline(always)]
    fn line(x: &[Values; 8], r: Sums) -> [Sums; 32] {
        lines::line_32(&x[..], r)
    }
}

impl Stage for Quarter32 {
    const POINTS: usize = 32;

    ghost POINTS = { 32 };

    const ROWS: usize = 8;

    ghost ROWS = { 8 };

    fn stage<I: Input, T: Output>(a: &[I], count: usize, half: i32, s: u32, out: &mut [T]) {
        lines_as_rows::<Quarter32, I, T, 8, 32>(a, count, half, s, out);
    }

    fn parts(s: &[i32], k: u32, count: usize, half: i32, by: u32, out: &mut [i32]) {
        parts_as_rows::<Quarter32, 8, 32>(s, k, count, half, by, out);
    }

    ghost size = { Prim.search rules };
}
