// Four columns at a time: values of 16 bits and sums of 32, with a lane for each column, and rows of eight values of 16 bits.
// Internal: no refusal; callers meet each `requires`.
#![tactic(auto)]

ghost use Rattle.std.specs.Prelude.{◌≡◌, ℕ, ◌+◌, ◌<◌, ◌≤◌, pos, ◌+ℤ◌, ◌-ℤ◌, ◌*ℤ◌, ◌≤ℤ◌, length, get_or};
ghost use Rattle.std.specs.Int.{w32};
ghost use Rattle.std.proofs.Common.{SFits};
ghost use Rattle.integers.specs.Clip.{clip3};
ghost use Rattle.integers.specs.Shift.{pow2, shift_right};
ghost use Rattle.integers.specs.Within.{Within};
ghost use Rattle.h265.specs.Range.{clip_coeff};
ghost use Rattle.transform_1d.specs.Rows.{Placed};
ghost use Rattle.vectors.specs.Lanes.{lane, Turned, EightTurned};

use std::simd::prelude::*;

// A value of each of four columns.
// Kept: a struct around the vector, here and below: the check does not cover an array of vectors of signed numbers yet, and the struct knows how
// many lanes there are.
#[derive(Clone, Copy)]
pub struct Values {
    pub v: i16x4,
    ghost four: { length v ≡ 4 },
}

impl Values {
    #[inline(always)]
    pub fn zero() -> Values
        ensures { (j : ℕ) → lane j result.v ≡ pos 0 }
    {
        Values { v: i16x4::splat(0) }
    }

    // The four values from place at on.
    // Kept: one by one, which the compiler makes one read of: of `from_slice` the check does not know that what it reads has 16 bits.
    #[inline(always)]
    pub fn load(a: &[i16], at: usize) -> Values
        requires { at + 4 ≤ length a.now }
        ensures { (j : ℕ) → j < 4 → lane j result.v ≡ get_or a.now (at + j) (pos 0) }
    {
        Values {
            v: i16x4::from_array([a[at], a[at + 1], a[at + 2], a[at + 3]]),
        }
    }

    // 128 times each value.
    #[inline(always)]
    pub fn times_128(self) -> Sums
        ensures { (j : ℕ) → (lane j result.v ≡ pos 128 *ℤ lane j self.v) × Within 4194304 (lane j result.v) }
    {
        Sums {
            v: self.v.cast::<i32>() * i32x4::splat(128),
        }
    }

    // The values of the first columns, and zeros for the others.
    #[inline(always)]
    pub fn first(self, count: usize) -> Values
        requires { count ≤ 4 }
        ensures { (j : ℕ) → (j < count → lane j result.v ≡ lane j self.v) × (count ≤ j → lane j result.v ≡ pos 0) }
    {
        let first = i16x4::from_array([0, 1, 2, 3]).simd_lt(i16x4::splat(count as i16));
        Values {
            v: first.select(self.v, i16x4::splat(0)),
        }
    }

    // The same numbers as sums.
    #[inline(always)]
    pub fn wide(self) -> Sums
        ensures { (j : ℕ) → lane j result.v ≡ lane j self.v }
    {
        Sums {
            v: self.v.cast::<i32>(),
        }
    }

    // Each value, limited to 0 .. most.
    #[inline(always)]
    pub fn between(self, most: i16) -> Values
        requires { pos 0 ≤ℤ most }
        ensures { (j : ℕ) → j < 4 → lane j result.v ≡ clip3 (pos 0) most (lane j self.v) }
    {
        Values {
            v: self.v.simd_clamp(i16x4::splat(0), i16x4::splat(most)),
        }
    }

    // The four values, from place at on.
    #[inline(always)]
    pub fn store(self, out: &mut [i16], at: usize)
        requires { at + 4 ≤ length out.old }
        ensures { Placed at 4 (λ j. lane j self.v) out.old out.new }
    {
        self.v.copy_to_slice(&mut out[at..]);
    }
}

// A sum for each of four columns.
#[derive(Clone, Copy)]
pub struct Sums {
    pub v: i32x4,
    ghost four: { length v ≡ 4 },
}

// Two products: u times x and v times y. Both values of a column stand side by side in 32 bits, of which the compiler makes its 16-bit
// multiply-add.
#[inline(always)]
pub fn products(u: i16, x: Values, v: i16, y: Values) -> Sums
    requires { Within 180 u × Within 180 v }
    ensures { (j : ℕ) → (lane j result.v ≡ u *ℤ lane j x.v +ℤ v *ℤ lane j y.v) × Within 11796480 (lane j result.v) }
{
    let p = i32x4::from_le_bytes(x.v.shuffle(y.v, [0, 4, 1, 5, 2, 6, 3, 7]).to_le_bytes());
    let low = (p << i32x4::splat(16)) >> i32x4::splat(16);
    let high = p >> i32x4::splat(16);
    Sums {
        v: low * i32x4::splat(u as i32) + high * i32x4::splat(v as i32),
    }
}

impl Sums {
    #[inline(always)]
    pub fn zero() -> Sums
        ensures { (j : ℕ) → lane j result.v ≡ pos 0 }
    {
        Sums { v: i32x4::splat(0) }
    }

    // The same number for each column.
    #[inline(always)]
    pub fn splat(x: i32) -> Sums
        ensures { (j : ℕ) → j < 4 → lane j result.v ≡ x }
    {
        Sums { v: i32x4::splat(x) }
    }

    // The four numbers from place at on.
    // Kept: one by one, as in `Values`.
    #[inline(always)]
    pub fn load(a: &[i32], at: usize) -> Sums
        requires { at + 4 ≤ length a.now }
        ensures { (j : ℕ) → j < 4 → lane j result.v ≡ get_or a.now (at + j) (pos 0) }
    {
        Sums {
            v: i32x4::from_array([a[at], a[at + 1], a[at + 2], a[at + 3]]),
        }
    }

    #[inline(always)]
    pub fn plus(self, o: Sums) -> Sums
        requires { (j : ℕ) → SFits w32 (lane j self.v +ℤ lane j o.v) }
        ensures { (j : ℕ) → lane j result.v ≡ lane j self.v +ℤ lane j o.v }
    {
        Sums { v: self.v + o.v }
    }

    #[inline(always)]
    pub fn minus(self, o: Sums) -> Sums
        requires { (j : ℕ) → SFits w32 (lane j self.v -ℤ lane j o.v) }
        ensures { (j : ℕ) → lane j result.v ≡ lane j self.v -ℤ lane j o.v }
    {
        Sums { v: self.v - o.v }
    }

    // Each sum, shifted by s.
    #[inline(always)]
    pub fn shifted(self, s: u32) -> Sums
        requires { s ≤ 31 }
        ensures { (j : ℕ) → lane j result.v ≡ shift_right (lane j self.v) s }
    {
        Sums {
            v: self.v >> i32x4::splat(s as i32),
        }
    }

    // 2^s times each sum.
    #[inline(always)]
    pub fn times(self, s: u32) -> Sums
        requires { (s ≤ 30) × ((j : ℕ) → SFits w32 (pow2 s *ℤ lane j self.v)) }
        ensures { (j : ℕ) → lane j result.v ≡ pow2 s *ℤ lane j self.v }
    {
        Sums {
            v: self.v << i32x4::splat(s as i32),
        }
    }

    // Each sum, limited to 16 bits.
    #[inline(always)]
    pub fn limited(self) -> Values
        ensures { (j : ℕ) → j < 4 → lane j result.v ≡ clip_coeff 15 (lane j self.v) }
    {
        let least = i32x4::splat(-32768);
        let most = i32x4::splat(32767);
        Values {
            v: self.v.simd_clamp(least, most).cast::<i16>(),
        }
    }

    // The four sums, from place at on.
    #[inline(always)]
    pub fn store(self, out: &mut [i32], at: usize)
        requires { at + 4 ≤ length out.old }
        ensures { Placed at 4 (λ j. lane j self.v) out.old out.new }
    {
        self.v.copy_to_slice(&mut out[at..]);
    }
}

// Four vectors turned over.
#[inline(always)]
pub fn turned(a: Sums, b: Sums, c: Sums, d: Sums) -> (Sums, Sums, Sums, Sums)
    ensures { Turned a.v b.v c.v d.v result.0.v result.1.v result.2.v result.3.v }
{
    let (e, f) = a.v.interleave(c.v);
    let (g, h) = b.v.interleave(d.v);
    let (p, q) = e.interleave(g);
    let (r, s) = f.interleave(h);
    (Sums { v: p }, Sums { v: q }, Sums { v: r }, Sums { v: s })
}

// The same of values.
#[inline(always)]
pub fn values_turned(a: Values, b: Values, c: Values, d: Values) -> (Values, Values, Values, Values)
    ensures { Turned a.v b.v c.v d.v result.0.v result.1.v result.2.v result.3.v }
{
    let e = a.v.shuffle(b.v, [0, 4, 1, 5, 2, 6, 3, 7]);
    let f = c.v.shuffle(d.v, [0, 4, 1, 5, 2, 6, 3, 7]);
    let p = e.shuffle(f, [0, 1, 8, 9, 2, 3, 10, 11]);
    let q = e.shuffle(f, [4, 5, 12, 13, 6, 7, 14, 15]);
    (
        Values {
            v: p.extract::<0, 4>(),
        },
        Values {
            v: p.extract::<4, 4>(),
        },
        Values {
            v: q.extract::<0, 4>(),
        },
        Values {
            v: q.extract::<4, 4>(),
        },
    )
}

// Eight values of 16 bits.
#[derive(Clone, Copy)]
pub struct Row {
    pub v: i16x8,
    ghost eight: { length v ≡ 8 },
}

// The sums a and, behind them, b, each limited to 16 bits.
#[inline(always)]
pub fn limited(a: Sums, b: Sums) -> Row
    ensures { (j : ℕ) → j < 4 → (lane j result.v ≡ clip_coeff 15 (lane j a.v)) × (lane (4 + j) result.v ≡ clip_coeff 15 (lane j b.v)) }
{
    let least = i32x8::splat(-32768);
    let most = i32x8::splat(32767);
    let both = a.v.shuffle(b.v, [0, 1, 2, 3, 4, 5, 6, 7]);
    Row {
        v: both.simd_clamp(least, most).cast::<i16>(),
    }
}

// Four times two vectors of four lanes that stand side by side, turned over.
#[inline(always)]
pub fn eight_turned(a: Row, b: Row, c: Row, d: Row) -> (Row, Row, Row, Row)
    ensures { EightTurned a.v b.v c.v d.v result.0.v result.1.v result.2.v result.3.v }
{
    let (e, f) = a.v.interleave(c.v);
    let (g, h) = b.v.interleave(d.v);
    let (i, j) = e.interleave(g);
    let (k, l) = f.interleave(h);
    let (p, q) = i.interleave(k);
    let (r, s) = j.interleave(l);
    (Row { v: p }, Row { v: q }, Row { v: r }, Row { v: s })
}

impl Row {
    #[inline(always)]
    pub fn zero() -> Row
        ensures { (j : ℕ) → lane j result.v ≡ pos 0 }
    {
        Row { v: i16x8::splat(0) }
    }

    // The eight values, from place at on.
    #[inline(always)]
    pub fn store(self, out: &mut [i16], at: usize)
        requires { at + 8 ≤ length out.old }
        ensures { Placed at 8 (λ j. lane j self.v) out.old out.new }
    {
        self.v.copy_to_slice(&mut out[at..]);
    }
}
