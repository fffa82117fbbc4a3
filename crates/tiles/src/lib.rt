// One stage over a block of 8 × 8 to 32 × 32 on 16-bit data, or on 32-bit data in two parts of 16: the line over column c becomes row c, so that each
// stage reads columns and writes rows, four lines at a time.
// Internal: no refusal; callers meet each `requires`.
#![tactic(auto)]

ghost use Rattle.std.specs.Prelude.{◌≡◌, true, ℕ, ◌+◌, ◌*◌, ◌-◌, ◌<◌, ◌≤◌, ◌^◌, ℤ, pos, ◌+ℤ◌, ◌-ℤ◌, ◌≤ℤ◌, length, get_or, map};
ghost use Rattle.integers.specs.Lists.{overwrite};
ghost use Rattle.integers.specs.Shift.{pow2, shift_right, round_shift};
ghost use Rattle.integers.specs.Within.{Within};
ghost use Rattle.h265.specs.Range.{clip_coeff};
ghost use Rattle.transform_1d.specs.Rows.{Placed};
ghost use Rattle.lines.specs.Fold.{round_most, Twice};
ghost use Rattle.std.proofs.Common.{rules};
ghost use Rattle.vectors.specs.Lanes.{lane, column};
ghost use Rattle.tiles.specs.Tile.{paired, first_rows, Head, Block, PartNeeds, LineSize, StageSize, StageNeeds, StageGives};
ghost use Rattle.tiles.specs.Parts.{high_of, low_of, SplitNeeds, SplitGives};

use std::cmp::min;
use vectors::{Row, Sums, Values, eight_turned, turned, values_turned};

// What a stage reads: elements of 16 bits, or of 32 that are limited to 16 as they are read.
pub trait Input: Copy {
    // The number that is read of an element.
    ghost read: { Self → ℤ };

    // Four elements, from place at on.
    // Kept: a place beside the slice, as in `vectors`.
    fn load(a: &[Self], at: usize) -> Values
        requires { at + 4 ≤ length a.now }
        ensures { (j : ℕ) → j < 4 → lane j result.v ≡ get_or (map read a.now) (at + j) (pos 0) };
}

impl Input for i32 {
    ghost read = { clip_coeff 15 };

    #[inline(always)]
    fn load(a: &[i32], at: usize) -> Values {
        Sums::load(a, at).limited()
    }
}

impl Input for i16 {
    ghost read = { λ x. x };

    #[inline(always)]
    fn load(a: &[i16], at: usize) -> Values {
        Values::load(a, at)
    }
}

// What a stage writes: a sum in 32 bits, or limited to 16.
// Kept: `of` and `is_zero` beside `From` and `==`: `of` may limit, which is no conversion, and what `==` says of a type would be one more law here.
pub trait Output: Copy {
    // The number that an element holds.
    ghost value: { Self → ℤ };

    // What it keeps of a sum.
    ghost made: { ℤ → ℤ };

    fn of(x: i32) -> Self
        ensures { value result ≡ made x };

    // `true` only where the number is 0; `false` says nothing.
    fn is_zero(self) -> bool
        ensures { result ≡ true → value self ≡ pos 0 };

    // The outputs of four lines as w rows, as long as there are outputs, from place at on.
    // Kept: the outputs as a slice, and not as an array of a const parameter, which no method of a trait may have yet.
    fn put_rows(v: &[Sums], w: usize, out: &mut [Self], at: usize)
        requires { LineSize (length v.now) × (w ≤ 4) × (at ≤ 1024) × (at + w * length v.now ≤ length out.old) }
        ensures { Block at (length v.now) (length v.now) (λ j m. Self.made (get_or (column (λ q. q.v) j v.now) m (pos 0))) w (map value out.old) (map value out.new) };

    // The outputs of the four lines of a block of 4 points as its rows.
    fn put_block(v: &[Sums], out: &mut [Self])
        requires { (length v.now ≡ 4) × (16 ≤ length out.old) }
        ensures { Block 0 4 4 (λ j m. Self.made (get_or (column (λ q. q.v) j v.now) m (pos 0))) 4 (map value out.old) (map value out.new) };
}

// Four sums as part of row j, if that is one of w.
#[inline(always)]
fn put_four(v: Sums, j: usize, w: usize, out: &mut [i32], at: usize)
    requires { j < w → at + 4 ≤ length out.old }
    ensures { (j < w → Placed at 4 (λ m. lane m v.v) out.old out.new) × (w ≤ j → out.new ≡ out.old) }
{
    if j < w {
        v.store(out, at);
    }
}

// Four outputs of four lines, from output `from` on, as parts of w rows.
#[inline(always)]
fn put_fours(v: &[Sums], from: usize, w: usize, out: &mut [i32], at: usize, n: usize)
    requires { PartNeeds 4 w at n (length out.old) × (from + 4 ≤ length v.now) }
    ensures { Block at n 4 (λ j m. get_or (column (λ q. q.v) j v.now) (from + m) (pos 0)) w out.old out.new }
{
    let (p, q, r, s) = turned(v[from], v[from + 1], v[from + 2], v[from + 3]);
    put_four(p, 0, w, out, at);
    put_four(q, 1, w, out, at + n);
    put_four(r, 2, w, out, at + 2 * n);
    put_four(s, 3, w, out, at + 3 * n);
}

// Eight values as part of row j, if that is one of w.
#[inline(always)]
fn put_row(v: Row, j: usize, w: usize, out: &mut [i16], at: usize)
    requires { j < w → at + 8 ≤ length out.old }
    ensures { (j < w → Placed at 8 (λ m. lane m v.v) out.old out.new) × (w ≤ j → out.new ≡ out.old) }
{
    if j < w {
        v.store(out, at);
    }
}

// All outputs of four lines, limited to 16 bits: two and two in a row, of which the first half is of the first of them.
// Kept: a loop of its own: the compiler limits each sum where it is worked out, so that half as many vectors are put by.
#[inline(always)]
fn limited_pairs(v: &[Sums]) -> [Row; 16]
    requires { LineSize (length v.now) }
    ensures { (j m : ℕ) → j < 4 → m < length v.now → paired (λ q. q.v) j result m ≡ clip_coeff 15 (get_or (column (λ q. q.v) j v.now) m (pos 0)) }
{
    let mut p = [Row::zero(); 16];
    for t in 0..v.len() / 2 {
        p[t] = vectors::limited(v[2 * t], v[2 * t + 1]);
    }
    p
}

// Eight outputs of four lines, of which the first two stand in p[from], as parts of w rows of n elements.
#[inline(always)]
fn put_eight(p: &[Row], from: usize, w: usize, out: &mut [i16], at: usize, n: usize)
    requires { PartNeeds 8 w at n (length out.old) × (from + 4 ≤ length p.now) }
    ensures { Block at n 8 (λ j m. paired (λ q. q.v) j p.now (2 * from + m)) w out.old out.new }
{
    let (a, b, c, d) = eight_turned(p[from], p[from + 1], p[from + 2], p[from + 3]);
    put_row(a, 0, w, out, at);
    put_row(b, 1, w, out, at + n);
    put_row(c, 2, w, out, at + 2 * n);
    put_row(d, 3, w, out, at + 3 * n);
}

impl Output for i32 {
    ghost value = { λ x. x };

    ghost made = { λ x. x };

    #[inline(always)]
    fn of(x: i32) -> i32 {
        x
    }

    #[inline(always)]
    fn is_zero(self) -> bool {
        self == 0
    }

    #[inline(always)]
    fn put_rows(v: &[Sums], w: usize, out: &mut [i32], at: usize) {
        for t in 0..v.len() / 4 {
            put_fours(v, 4 * t, w, out, at + 4 * t, v.len());
        }
    }

    #[inline(always)]
    fn put_block(v: &[Sums], out: &mut [i32]) {
        put_fours(v, 0, 4, out, 0, 4);
    }
}

impl Output for i16 {
    ghost value = { λ x. x };

    ghost made = { clip_coeff 15 };

    #[inline(always)]
    fn of(x: i32) -> i16 {
        limited(x)
    }

    #[inline(always)]
    fn is_zero(self) -> bool {
        (self as i32).is_zero()
    }

    #[inline(always)]
    fn put_rows(v: &[Sums], w: usize, out: &mut [i16], at: usize) {
        let p = limited_pairs(v);
        for t in 0..v.len() / 8 {
            put_eight(&p[..], 4 * t, w, out, at + 8 * t, v.len());
        }
    }

    #[inline(always)]
    fn put_block(v: &[Sums], out: &mut [i16]) {
        let (a, b, c, d) = values_turned(
            v[0].limited(),
            v[1].limited(),
            v[2].limited(),
            v[3].limited(),
        );
        a.store(out, 0);
        b.store(out, 4);
        c.store(out, 8);
        d.store(out, 12);
    }
}

// A line of N points of which the first Q values are there, at twice its value and with r added to each output, of four columns at a time.
pub trait Line<const Q: usize, const N: usize> {
    fn line(x: &[Values; Q], r: Sums) -> [Sums; N]
        requires { (j : ℕ) → Within round_most (lane j r.v) }
        ensures { (j : ℕ) → Twice N 1 (column (λ q. q.v) j x.now) (lane j r.v) (column (λ q. q.v) j result) };
}

// What rounding adds before a shift by s.
// Kept: s as a number with its bounds, here and in `stages`: a shift is worked out or written at each call, and a type of it would be made there.
pub fn half(s: u32) -> i32
    requires { (0 < s) × (s ≤ 12) }
    ensures { (result ≡ pow2 (s - 1)) × Within (2 ^ 11) result }
{
    let h = 1u32 << (s - 1);
    h as i32
}

// (x + 2^(s-1)) >> s: a sum, rounded.
pub fn rounded(x: i32, s: u32) -> i32
    requires { Within (480 * 2 ^ 22) x × (0 < s) × (s ≤ 12) }
    ensures { result ≡ round_shift x s }
{
    (x + half(s)) >> s
}

// x limited to 16 bits.
#[inline(always)]
pub fn limited(x: i32) -> i16
    ensures { result ≡ clip_coeff 15 x }
{
    x.clamp(i16::MIN as i32, i16::MAX as i32) as i16
}

// v in the first w places.
// Kept: std's `fill` is said by what T's clone may give, so that `Output` would need a law of clone, and a proof of it for each type.
pub fn fill<T: Output>(v: T, w: usize, out: &mut [T])
    requires { w ≤ length out.old }
    ensures { map T.value out.new ≡ overwrite w (λ i. T.value v) (map T.value out.old) }
{
    for i in 0..w {
        out[i] = v;
    }
}

// Four columns of a block, from column b on: the first values of each.
#[inline(always)]
pub fn columns<I: Input, const Q: usize, const N: usize>(a: &[I], b: usize) -> [Values; Q]
    requires { (b + 4 ≤ N) × (Q * N ≤ length a.now) }
    ensures { (j : ℕ) → j < 4 → Head Q N (map I.read a.now) (b + j) (column (λ q. q.v) j result) }
{
    let mut x = [Values::zero(); Q];
    for k in 0..Q {
        x[k] = I::load(a, k * N + b);
    }
    x
}

// The high part of each value.
#[inline(always)]
fn high(x: Sums, k: u32) -> Values
    requires { k ≤ 7 }
    ensures { (j : ℕ) → j < 4 → lane j result.v ≡ high_of k (lane j x.v) }
{
    x.shifted(k).limited()
}

// 2^k - 1.
#[inline(always)]
fn low_most(k: u32) -> i16
    requires { k ≤ 7 }
    ensures { (result ≡ pow2 k -ℤ pos 1) × (pos 0 ≤ℤ result) }
{
    ((1i32 << k) - 1) as i16
}

// The low part of each value, h being the high one.
#[inline(always)]
fn low(x: Sums, h: Values, k: u32) -> Values
    requires { (k ≤ 7) × ((j : ℕ) → j < 4 → lane j h.v ≡ high_of k (lane j x.v)) }
    ensures { (j : ℕ) → j < 4 → lane j result.v ≡ low_of k (lane j x.v) }
{
    let rest = x.minus(h.wide().times(k)).limited();
    rest.between(low_most(k))
}

// Four columns of a block, from column b on, in two parts: the high ones of the first values of each, and the low ones.
#[inline(always)]
fn columns_in_parts<const Q: usize, const N: usize>(
    s: &[i32],
    k: u32,
    b: usize,
) -> ([Values; Q], [Values; Q])
    requires { (b + 4 ≤ N) × (Q * N ≤ length s.now) × (k ≤ 7) }
    ensures high { (j : ℕ) → j < 4 → Head Q N (map (high_of k) s.now) (b + j) (column (λ q. q.v) j result.0) }
    ensures low { (j : ℕ) → j < 4 → Head Q N (map (low_of k) s.now) (b + j) (column (λ q. q.v) j result.1) }
{
    let mut h = [Values::zero(); Q];
    let mut l = [Values::zero(); Q];
    for i in 0..Q {
        let x = Sums::load(s, i * N + b);
        let top = high(x, k);
        h[i] = top;
        l[i] = low(x, top, k);
    }
    (h, l)
}

// The outputs of four lines, each shifted by s.
#[inline(always)]
pub fn shifted<const N: usize>(z: &[Sums; N], s: u32) -> [Sums; N]
    requires { s ≤ 31 }
    ensures { (j m : ℕ) → m < N → get_or (column (λ q. q.v) j result) m (pos 0) ≡ shift_right (get_or (column (λ q. q.v) j z.now) m (pos 0)) s }
{
    let mut v = [Sums::zero(); N];
    for m in 0..N {
        v[m] = z[m].shifted(s);
    }
    v
}

// The outputs of four lines over both parts added up, each sum shifted.
#[inline(always)]
fn joined<const N: usize>(d: &[Sums; N], g: &[Sums; N], by: u32) -> [Sums; N]
    requires { (by ≤ 12) × ((j m : ℕ) → m < N → Within (2 ^ 29) (get_or (column (λ q. q.v) j d.now) m (pos 0)) × Within (2 ^ 29) (get_or (column (λ q. q.v) j g.now) m (pos 0))) }
    ensures { (j m : ℕ) → m < N → get_or (column (λ q. q.v) j result) m (pos 0) ≡ shift_right (get_or (column (λ q. q.v) j d.now) m (pos 0) +ℤ get_or (column (λ q. q.v) j g.now) m (pos 0)) by }
{
    let mut v = [Sums::zero(); N];
    for m in 0..N {
        v[m] = d[m].plus(g[m]).shifted(by);
    }
    v
}

// The line over column c becomes row c of out, for c < count.
#[inline(never)]
pub fn lines_as_rows<K: Line<Q, N>, I: Input, T: Output, const Q: usize, const N: usize>(
    a: &[I],
    count: usize,
    half: i32,
    s: u32,
    out: &mut [T],
)
    requires { StageNeeds Q N (length a.now) count half s (length out.old) × LineSize N × (Q ≤ 32) }
    ensures { StageGives N (first_rows Q N (map I.read a.now)) count half s T.made (map T.value out.old) (map T.value out.new) }
{
    let r = Sums::splat(2 * half);
    for b in (0..count).step_by(4) {
        let x = columns::<I, Q, N>(a, b);
        let z = K::line(&x, r);
        let v = shifted(&z, s + 1);
        T::put_rows(&v[..], min(4, count - b), out, b * N);
    }
}

// The same of values of more than 16 bits, by the lines over both parts of each: those over the high parts with nothing added, those over the low
// parts with what rounds the whole, and shifted by k as these stand k places below.
#[inline(never)]
pub fn parts_as_rows<K: Line<Q, N>, const Q: usize, const N: usize>(
    s: &[i32],
    k: u32,
    count: usize,
    half: i32,
    by: u32,
    out: &mut [i32],
)
    requires { SplitNeeds Q N k (length s.now) count half by (length out.old) × LineSize N × (Q ≤ 32) }
    ensures { SplitGives Q N k s.now count half by out.old out.new }
{
    let twice = Sums::splat(2 * half);
    for b in (0..count).step_by(4) {
        let (h, l) = columns_in_parts::<Q, N>(s, k, b);
        let g = shifted(&K::line(&h, Sums::zero()), 1);
        let d = shifted(&K::line(&l, twice), k + 1);
        let v = joined(&d, &g, by);
        i32::put_rows(&v[..], min(4, count - b), out, b * N);
    }
}

// The stages of each size, over whole blocks and over blocks of which only the first rows are there.
pub trait Stage {
    const POINTS: usize;

    ghost POINTS: { ℕ };

    // The rows that are there.
    const ROWS: usize;

    ghost ROWS: { ℕ };

    // Kept: half and s as two numbers, here and above: the calls differ in both (`half(s)` and s, half of another shift, 64 and 7, 0 and 0), and a type of both would be made at
    // each of them.
    fn stage<I: Input, T: Output>(a: &[I], count: usize, half: i32, s: u32, out: &mut [T])
        requires { StageNeeds ROWS POINTS (length a.now) count half s (length out.old) }
        ensures { StageGives POINTS (first_rows ROWS POINTS (map I.read a.now)) count half s T.made (map T.value out.old) (map T.value out.new) };

    // The same of 32-bit values, by both parts of each.
    fn parts(s: &[i32], k: u32, count: usize, half: i32, by: u32, out: &mut [i32])
        requires { SplitNeeds ROWS POINTS k (length s.now) count half by (length out.old) }
        ensures { SplitGives ROWS POINTS k s.now count half by out.old out.new };

    ghost size: { StageSize ROWS POINTS };
}

// Kept: an impl for each size, whose line is a function for each (crate `lines`), and which a caller names as one type.
#[derive(Clone, Copy)]
pub struct Whole8;

impl Line<8, 8> for Whole8 {
    #[inline(always)]
    fn line(x: &[Values; 8], r: Sums) -> [Sums; 8] {
        lines::line_8(&x[..], 1, r)
    }
}

impl Stage for Whole8 {
    const POINTS: usize = 8;

    ghost POINTS = { 8 };

    const ROWS: usize = 8;

    ghost ROWS = { 8 };

    fn stage<I: Input, T: Output>(a: &[I], count: usize, half: i32, s: u32, out: &mut [T]) {
        lines_as_rows::<Whole8, I, T, 8, 8>(a, count, half, s, out);
    }

    fn parts(s: &[i32], k: u32, count: usize, half: i32, by: u32, out: &mut [i32]) {
        parts_as_rows::<Whole8, 8, 8>(s, k, count, half, by, out);
    }

    ghost size = { Prim.search rules };
}

#[derive(Clone, Copy)]
pub struct Whole16;

impl Line<16, 16> for Whole16 {
    #[inline(always)]
    fn line(x: &[Values; 16], r: Sums) -> [Sums; 16] {
        lines::line_16(&x[..], 1, r)
    }
}

impl Stage for Whole16 {
    const POINTS: usize = 16;

    ghost POINTS = { 16 };

    const ROWS: usize = 16;

    ghost ROWS = { 16 };

    fn stage<I: Input, T: Output>(a: &[I], count: usize, half: i32, s: u32, out: &mut [T]) {
        lines_as_rows::<Whole16, I, T, 16, 16>(a, count, half, s, out);
    }

    fn parts(s: &[i32], k: u32, count: usize, half: i32, by: u32, out: &mut [i32]) {
        parts_as_rows::<Whole16, 16, 16>(s, k, count, half, by, out);
    }

    ghost size = { Prim.search rules };
}
