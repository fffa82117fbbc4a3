// Lines of 2 to 32 points by even and odd parts, and the 4-point DST's line by four entries for each output, at twice their value, on 16-bit data,
// four columns at a time. x holds the first values of four lines, and those past its end are zero: all of a line, or its first part (half of 8
// points, a quarter of 16 and 32). A line of n points reads every st-th value, and the DST's its four. r is added to each output, since a line's
// even part is the one place where it is added once for two outputs.
#![tactic(auto)]

ghost use Rattle.std.specs.Prelude.{◌≡◌, ℕ, ◌+◌, ◌*◌, ◌/◌, ◌<◌, ◌≤◌, pos, ◌+ℤ◌, ◌*ℤ◌, length, get_or};
ghost use Rattle.integers.specs.Within.{Within};
ghost use Rattle.h265.specs.Matrix.{dst_matrix};
ghost use Rattle.vectors.specs.Lanes.{lane, column};
ghost use Rattle.lines.specs.Fold.{value_most, round_most, dot_sum, product_sum, Small, DotNeeds, Paired, FoldNeeds, Folded, TwiceBy, Twice, TwiceOdd};

use vectors::{Sums, Values, products};

// Value i of each line; past the end, zero.
#[inline(always)]
fn value(x: &[Values], i: usize) -> Values
    ensures { (j : ℕ) → lane j result.v ≡ get_or (column (λ q. q.v) j x.now) i (pos 0) }
{
    x.get(i).copied().unwrap_or(Values::zero())
}

// The products of the odd values of x, st apart, with the entries t, two and two together, in the first half of what is handed back: of these the
// compiler makes its 16-bit multiply-add.
// Kept: turns by what x has: of a count that is known before the line is in its stage the compiler makes one chain of all products, with two
// multiply-adds for most pairs (DECISIONS 71).
fn pairs<const H: usize>(x: &[Values], st: usize, t: &[i16; H]) -> [Sums; H]
    requires { DotNeeds H st t.now (length x.now) }
    ensures { (j k : ℕ) → k < H / 2 → Paired t.now st (column (λ q. q.v) j x.now) k (get_or (column (λ q. q.v) j result) k (pos 0)) }
{
    let mut s = [Sums::zero(); H];
    let mut k = 0;
    while st * (4 * k + 1) < x.len() {
        s[k] = products(
            t[2 * k],
            value(x, st * (4 * k + 1)),
            t[2 * k + 1],
            value(x, st * (4 * k + 3)),
        );
        k += 1;
    }
    s
}

// The odd values of x, st apart, by the entries t.
fn dot<const H: usize>(x: &[Values], st: usize, t: &[i16; H]) -> Sums
    requires { DotNeeds H st t.now (length x.now) }
    ensures { (j : ℕ) → (lane j result.v ≡ dot_sum H t.now st (column (λ q. q.v) j x.now)) × Within (H * value_most) (lane j result.v) }
{
    let p = pairs(x, st, t);
    let mut s = Sums::zero();
    for k in 0..H / 2 {
        s = s.plus(p[k]);
    }
    s
}

// The lines of M points from twice their even and their odd parts: sums, and from the end on differences.
fn fold<const H: usize, const M: usize>(e: &[Sums; H], o: &[Sums; H]) -> [Sums; M]
    requires { (j : ℕ) → FoldNeeds H M (column (λ q. q.v) j e.now) (column (λ q. q.v) j o.now) }
    ensures { (j : ℕ) → Folded H (column (λ q. q.v) j e.now) (column (λ q. q.v) j o.now) (column (λ q. q.v) j result) }
{
    let mut z = [Sums::zero(); M];
    for m in 0..H {
        z[m] = e[m].plus(o[m]);
        z[M - 1 - m] = e[m].minus(o[m]);
    }
    z
}

// Kept: a function for each size, and the bound on st of each. A line of n points calls that of n / 2, which Rust takes for no const argument,
// and literal entries save lending a table through every line, with three facts for each read (DECISIONS 71).
#[inline(always)]
fn line_2(x: &[Values], st: usize, r: Sums) -> [Sums; 2]
    requires { (j : ℕ) → Within round_most (lane j r.v) }
    ensures { (j : ℕ) → Twice 2 st (column (λ q. q.v) j x.now) (lane j r.v) (column (λ q. q.v) j result) }
{
    let a = value(x, 0).times_128().plus(r);
    let b = value(x, st).times_128();
    [a.plus(b), a.minus(b)]
}

#[inline(always)]
fn odd_4(x: &[Values], st: usize) -> [Sums; 2]
    requires { (1 ≤ st) × (4 * st ≤ 32) × (length x.now ≤ 4 * st) }
    ensures { (j : ℕ) → TwiceOdd 2 st (column (λ q. q.v) j x.now) (column (λ q. q.v) j result) }
{
    [dot(x, st, &[166, 72]), dot(x, st, &[72, -166])]
}

#[inline(always)]
pub fn line_4(x: &[Values], st: usize, r: Sums) -> [Sums; 4]
    requires { (1 ≤ st) × (4 * st ≤ 32) × (length x.now ≤ 4 * st) × ((j : ℕ) → Within round_most (lane j r.v)) }
    ensures { (j : ℕ) → Twice 4 st (column (λ q. q.v) j x.now) (lane j r.v) (column (λ q. q.v) j result) }
{
    let e = line_2(x, 2 * st, r);
    let o = odd_4(x, st);
    fold(&e, &o)
}

// One output of four values, by four entries.
#[inline(always)]
fn four(x: &[Values; 4], t: [i16; 4], r: Sums) -> Sums
    requires { Small 180 t × ((j : ℕ) → Within round_most (lane j r.v)) }
    ensures { (j : ℕ) → (lane j result.v ≡ product_sum 4 t (column (λ q. q.v) j x.now) +ℤ lane j r.v) × Within (4 * value_most + round_most) (lane j result.v) }
{
    products(t[0], x[0], t[1], x[1])
        .plus(products(t[2], x[2], t[3], x[3]))
        .plus(r)
}

// The 4-point DST, whose rows have no mirror: every output by four entries, which are twice the matrix's.
#[inline(always)]
pub fn line_dst(x: &[Values; 4], r: Sums) -> [Sums; 4]
    requires { (j : ℕ) → Within round_most (lane j r.v) }
    ensures { (j : ℕ) → TwiceBy dst_matrix 4 1 (column (λ q. q.v) j x.now) (lane j r.v) (column (λ q. q.v) j result) }
{
    [
        four(x, [58, 148, 168, 110], r),
        four(x, [110, 148, -58, -168], r),
        four(x, [148, 0, -148, 148], r),
        four(x, [168, -148, 110, -58], r),
    ]
}

#[inline(always)]
fn odd_8(x: &[Values], st: usize) -> [Sums; 4]
    requires { (1 ≤ st) × (8 * st ≤ 32) × (length x.now ≤ 8 * st) }
    ensures { (j : ℕ) → TwiceOdd 4 st (column (λ q. q.v) j x.now) (column (λ q. q.v) j result) }
{
    [
        dot(x, st, &[178, 150, 100, 36]),
        dot(x, st, &[150, -36, -178, -100]),
        dot(x, st, &[100, -178, 36, 150]),
        dot(x, st, &[36, -100, 150, -178]),
    ]
}

#[inline(always)]
pub fn line_8(x: &[Values], st: usize, r: Sums) -> [Sums; 8]
    requires { (1 ≤ st) × (8 * st ≤ 32) × (length x.now ≤ 8 * st) × ((j : ℕ) → Within round_most (lane j r.v)) }
    ensures { (j : ℕ) → Twice 8 st (column (λ q. q.v) j x.now) (lane j r.v) (column (λ q. q.v) j result) }
{
    let e = line_4(x, 2 * st, r);
    let o = odd_8(x, st);
    fold(&e, &o)
}

#[inline(always)]
fn odd_16(x: &[Values], st: usize) -> [Sums; 8]
    requires { (1 ≤ st) × (16 * st ≤ 32) × (length x.now ≤ 16 * st) }
    ensures { (j : ℕ) → TwiceOdd 8 st (column (λ q. q.v) j x.now) (column (λ q. q.v) j result) }
{
    [
        dot(x, st, &[180, 174, 160, 140, 114, 86, 50, 18]),
        dot(x, st, &[174, 114, 18, -86, -160, -180, -140, -50]),
        dot(x, st, &[160, 18, -140, -174, -50, 114, 180, 86]),
        dot(x, st, &[140, -86, -174, 18, 180, 50, -160, -114]),
        dot(x, st, &[114, -160, -50, 180, -18, -174, 86, 140]),
        dot(x, st, &[86, -180, 114, 50, -174, 140, 18, -160]),
        dot(x, st, &[50, -140, 180, -160, 86, 18, -114, 174]),
        dot(x, st, &[18, -50, 86, -114, 140, -160, 174, -180]),
    ]
}

#[inline(always)]
pub fn line_16(x: &[Values], st: usize, r: Sums) -> [Sums; 16]
    requires { (1 ≤ st) × (16 * st ≤ 32) × (length x.now ≤ 16 * st) × ((j : ℕ) → Within round_most (lane j r.v)) }
    ensures { (j : ℕ) → Twice 16 st (column (λ q. q.v) j x.now) (lane j r.v) (column (λ q. q.v) j result) }
{
    let e = line_8(x, 2 * st, r);
    let o = odd_16(x, st);
    fold(&e, &o)
}

#[rattlefmt::skip]
#[inline(always)]
fn odd_32(x: &[Values]) -> [Sums; 16]
    requires { length x.now ≤ 32 }
    ensures { (j : ℕ) → TwiceOdd 16 1 (column (λ q. q.v) j x.now) (column (λ q. q.v) j result) }
{
    [
        dot(x, 1, &[180, 180, 176, 170, 164, 156, 146, 134, 122, 108, 92, 76, 62, 44, 26, 8]),
        dot(x, 1, &[180, 164, 134, 92, 44, -8, -62, -108, -146, -170, -180, -176, -156, -122, -76, -26]),
        dot(x, 1, &[176, 134, 62, -26, -108, -164, -180, -156, -92, -8, 76, 146, 180, 170, 122, 44]),
        dot(x, 1, &[170, 92, -26, -134, -180, -146, -44, 76, 164, 176, 108, -8, -122, -180, -156, -62]),
        dot(x, 1, &[164, 44, -108, -180, -122, 26, 156, 170, 62, -92, -180, -134, 8, 146, 176, 76]),
        dot(x, 1, &[156, -8, -164, -146, 26, 170, 134, -44, -176, -122, 62, 180, 108, -76, -180, -92]),
        dot(x, 1, &[146, -62, -180, -44, 156, 134, -76, -180, -26, 164, 122, -92, -176, -8, 170, 108]),
        dot(x, 1, &[134, -108, -156, 76, 170, -44, -180, 8, 180, 26, -176, -62, 164, 92, -146, -122]),
        dot(x, 1, &[122, -146, -92, 164, 62, -176, -26, 180, -8, -180, 44, 170, -76, -156, 108, 134]),
        dot(x, 1, &[108, -170, -8, 176, -92, -122, 164, 26, -180, 76, 134, -156, -44, 180, -62, -146]),
        dot(x, 1, &[92, -180, 76, 108, -180, 62, 122, -176, 44, 134, -170, 26, 146, -164, 8, 156]),
        dot(x, 1, &[76, -176, 146, -8, -134, 180, -92, -62, 170, -156, 26, 122, -180, 108, 44, -164]),
        dot(x, 1, &[62, -156, 180, -122, 8, 108, -176, 164, -76, -44, 146, -180, 134, -26, -92, 170]),
        dot(x, 1, &[44, -122, 170, -180, 146, -76, -8, 92, -156, 180, -164, 108, -26, -62, 134, -176]),
        dot(x, 1, &[26, -76, 122, -156, 176, -180, 170, -146, 108, -62, 8, 44, -92, 134, -164, 180]),
        dot(x, 1, &[8, -26, 44, -62, 76, -92, 108, -122, 134, -146, 156, -164, 170, -176, 180, -180]),
    ]
}

#[inline(always)]
pub fn line_32(x: &[Values], r: Sums) -> [Sums; 32]
    requires { length x.now ≤ 32 × ((j : ℕ) → Within round_most (lane j r.v)) }
    ensures { (j : ℕ) → Twice 32 1 (column (λ q. q.v) j x.now) (lane j r.v) (column (λ q. q.v) j result) }
{
    let e = line_16(x, 2, r);
    let o = odd_32(x);
    fold(&e, &o)
}
