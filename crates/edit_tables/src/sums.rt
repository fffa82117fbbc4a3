// The sums of both stages, and the intermediate between them.
ghost use Rattle.std.specs.Prelude.{◌≡◌, ℕ, ◌+◌, ◌*◌, ◌<◌, ◌≤◌, T, pos, length, get_or};
ghost use Rattle.integers.specs.Shift.{round_shift};
ghost use Rattle.integers.specs.Within.{Within};
ghost use Rattle.h265.specs.Range.{is_size, clip_coeff};
ghost use Rattle.h265.specs.Transform.{transform_line, block_at, stage_one_sum, stage_two_sum};
ghost use Rattle.edit_tables.specs.Tables.{Holds, LineNeeds, StageNeeds};

use crate::filled;

// The coefficients in 64 bits.
pub fn widened(coeff: &[i32], n: usize) -> [i64; 1024]
    requires { T (is_size n) × (n * n ≤ length coeff.now) }
    ensures { Holds n (block_at n coeff.now) result }
{
    filled(n, |k, c| i64::from(coeff[k * n + c]))
}

// One output of a line over x[base], x[base + stride], ..
fn line(t: &[i64; 1024], x: &[i64; 1024], n: usize, m: usize, base: usize, stride: usize) -> i64
    requires { LineNeeds n t.now x.now m base stride }
    ensures { result ≡ transform_line (block_at n t.now) n (λ k. get_or x.now (base + k * stride) (pos 0)) m }
{
    let mut sum: i64 = 0;
    for k in 0..n {
        let more = edit_values::mac(sum, t[k * n + m], x[base + k * stride]);
        sum = more;
    }
    sum
}

// Stage one: a sum down each column.
pub fn down_columns(t: &[i64; 1024], d: &[i64; 1024], n: usize) -> [i64; 1024]
    requires { StageNeeds n t.now d.now }
    ensures { Holds n (stage_one_sum (block_at n t.now) n (block_at n d.now)) result }
{
    filled(n, |m, c| line(t, d, n, m, c, n))
}

// Stage two: a sum along each row.
pub fn along_rows(t: &[i64; 1024], g: &[i64; 1024], n: usize) -> [i64; 1024]
    requires { StageNeeds n t.now g.now }
    ensures { Holds n (stage_two_sum (block_at n t.now) n (block_at n g.now)) result }
{
    filled(n, |m, j| line(t, g, n, j, m * n, 1))
}

// The values of stage one, limited.
pub fn limited(ones: &[i64; 1024], n: usize, range: u32) -> [i64; 1024]
    requires { T (is_size n) × (range ≤ 22) × ((m c : ℕ) → m < n → c < n → Within 12079595520 (block_at n ones.now m c)) }
    ensures { Holds n (λ m c. clip_coeff range (round_shift (block_at n ones.now m c) 7)) result }
{
    filled(n, |m, c| edit_values::stage_one(ones[m * n + c], range))
}
