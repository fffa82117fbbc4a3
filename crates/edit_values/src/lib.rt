// Which values of one coefficient give one sample of the residual. Internal: callers meet each `requires`.
// With everything else as it is, a sample never falls, or never rises, as the value grows: limit and rounding shift keep the order. So
// the values that give a target stand together, and both ends of them are found by halves.
#![tactic(auto)]

ghost use Rattle.std.specs.Prelude.{◌≡◌, true, false, ◌≤◌, ◌<◌, ◌+ℤ◌, ◌*ℤ◌};
ghost use Rattle.integers.specs.Shift.{round_shift};
ghost use Rattle.integers.specs.Within.{Within};
ghost use Rattle.h265.specs.Range.{clip_coeff};
ghost use Rattle.edit_values.specs.Values.{value_at};
ghost use Rattle.edit_values.specs.Sample.{sample_by, before, falls, past, Bounded, Split, Narrowed};

mod interval; // an interval of places

pub use interval::Span;

// What a sample has of everything but the coefficient's value.
#[derive(Clone, Copy)]
pub struct Probe {
    pub range: u32,
    pub shift: u32,
    pub entry_one: i64,
    pub rest_one: i64,
    pub entry_two: i64,
    pub rest_two: i64,
    pub target: i64,
}

// The value at a place of the range.
pub fn value_at(range: u32, place: u32) -> i64
    requires { (range ≤ 22) × (place ≤ 8388608) }
    ensures { (result ≡ value_at range place) × Within 12582912 result }
{
    i64::from(place) - integers::pow2(range)
}

// a + u × v.
pub fn mac(a: i64, u: i64, v: i64) -> i64
    requires { Within 17179869184 a × Within 90 u × Within 12582912 v }
    ensures { (result ≡ a +ℤ u *ℤ v) × Within 18312331264 result }
{
    a + u * v
}

// x shifted right by s, rounded.
// Kept: beside `rounded` of tiles: the sums here are longer than 32 bits, and one function for both would take a trait of both types for two lines.
fn round_shift(x: i64, s: u32) -> i64
    requires { Within 18312331264 x × (1 ≤ s) × (s ≤ 12) }
    ensures { result ≡ round_shift x s }
{
    integers::shift_right(x + integers::pow2(s - 1), s)
}

// The value of stage one of a sum, limited.
pub fn stage_one(sum: i64, range: u32) -> i64
    requires { Within 18312331264 sum × (range ≤ 22) }
    ensures { (result ≡ clip_coeff range (round_shift sum 7)) × Within 4194304 result }
{
    let end = integers::pow2(range);
    integers::clip3(-end, end - 1, round_shift(sum, 7))
}

// The sample.
// Kept: Bounded p is a clause, here and below: as a ghost field of Probe, the definition probe_at of edit_blocks, which makes a probe of any tables, would have to prove it.
fn sample(p: Probe, value: i64) -> i64
    requires { Bounded p × Within 12582912 value }
    ensures { result ≡ sample_by p value }
{
    let between = stage_one(mac(p.rest_one, p.entry_one, value), p.range);
    round_shift(mac(p.rest_two, p.entry_two, between), p.shift)
}

// Whether x comes before y as the coefficient's value grows.
// Kept: `falling` here and `strict` below are each a yes or a no, and a bool says that; an enum of two names would be matched at the same places.
fn before(falling: bool, x: i64, y: i64) -> bool
    ensures { result ≡ before falling x y }
{
    if falling {
        return y < x;
    }
    x < y
}

// Whether the sample falls as the value grows.
fn falls(p: Probe) -> bool
    requires { Bounded p }
    ensures { result ≡ falls p }
{
    (p.entry_one < 0) != (p.entry_two < 0)
}

// Whether the sample at a place lies at the target or past it; strict: past it.
fn past(p: Probe, strict: bool, place: u32) -> bool
    requires { Bounded p × (place ≤ 8388608) }
    ensures { result ≡ past p strict place }
{
    let x = sample(p, value_at(p.range, place));
    if strict {
        return before(falls(p), p.target, x);
    }
    !before(falls(p), x, p.target)
}

// The first place that is past, and the span's end where none is.
fn halve(p: Probe, strict: bool, span: Span) -> u32
    requires { Bounded p × (span.from ≤ span.to) }
    ensures { Split (past p strict) span.from span.to result }
{
    let mut low = span.from;
    let mut high = span.to;
    // Kept: a search by halves, whose step is no index; `partition_point` asks for a slice, and the places of the range are in none.
    while low < high {
        let middle = (low + high) / 2;
        if past(p, strict, middle) {
            high = middle;
        } else {
            low = middle + 1;
        }
    }
    low
}

// The first place that reaches the target. Mostly that is the first of all.
fn first_reached(p: Probe, span: Span) -> u32
    requires { Bounded p × (span.from < span.to) }
    ensures { Split (past p false) span.from span.to result }
{
    if past(p, false, span.from) {
        return span.from;
    }
    halve(p, false, span)
}

// The first place that is past the target. Mostly there is none.
fn first_passed(p: Probe, span: Span) -> u32
    requires { Bounded p × (span.from ≤ span.to) × (1 ≤ span.to) }
    ensures { Split (past p true) span.from span.to result }
{
    if !past(p, true, span.to - 1) {
        return span.to;
    }
    halve(p, true, span)
}

// The places of a span that give the target.
pub fn narrow(p: Probe, span: Span) -> Span
    requires { Bounded p × (span.from < span.to) }
    ensures { Narrowed p span.from span.to result }
{
    let from = first_reached(p, span);
    let rest = Span { from, to: span.to };
    let to = first_passed(p, rest);
    Span { from, to }
}
