// The next numbers of a file of cases. Where the file ends, zeros.
ghost use Rattle.std.specs.Prelude.{◌≡◌, ◌≤◌, ◌<◌, ◌+◌, ℕ, List, [], ◌∷◌, true, cond, not, eqb, ltb, min, length, get_or, take, drop, map};
ghost use Rattle.std.specs.Int.{w16, w32, w64, cast_unsigned, to_le_bytes};
ghost use Rattle.std.specs.Cmp.Lexicographic.{pointwise};
ghost use Rattle.std.specs.Io.KnownBytes.{Consumes};
ghost use Rattle.cases.specs.Reading.{Gives, GivesEach, one_byte, named};

use refusal::Precision;
use std::io::Read;
use transform_1d::Kind;

// A number that a file of cases holds.
// Kept: five impls alike, since `from_le_bytes` is each type's own; a trait of it would have as many impls.
pub trait Number: Copy + PartialEq {
    // Low byte first.
    ghost bytes: { Self → List ℕ };

    fn next_in<R: Read>(input: &mut R) -> Self
        ensures { Gives bytes (R.remaining input.old) result (R.remaining input.new) };
}

impl Number for u8 {
    ghost bytes = { one_byte };

    fn next_in<R: Read>(input: &mut R) -> u8 {
        next_bytes::<1, _>(input)[0]
    }
}

impl Number for u16 {
    ghost bytes = { to_le_bytes w16 };

    fn next_in<R: Read>(input: &mut R) -> u16 {
        u16::from_le_bytes(next_bytes(input))
    }
}

impl Number for i16 {
    ghost bytes = { λ x. to_le_bytes w16 (cast_unsigned w16 x) };

    fn next_in<R: Read>(input: &mut R) -> i16 {
        i16::from_le_bytes(next_bytes(input))
    }
}

impl Number for i32 {
    ghost bytes = { λ x. to_le_bytes w32 (cast_unsigned w32 x) };

    fn next_in<R: Read>(input: &mut R) -> i32 {
        i32::from_le_bytes(next_bytes(input))
    }
}

impl Number for usize {
    ghost bytes = { to_le_bytes w64 };

    fn next_in<R: Read>(input: &mut R) -> usize {
        usize::from_le_bytes(next_bytes(input))
    }
}

// As many bytes as the array has.
pub(crate) fn next_bytes<const N: usize, R: Read>(input: &mut R) -> [u8; N]
    ensures { (n : ℕ) × Consumes (R.remaining input.old) (R.remaining input.new) (take n result) }
{
    let mut bytes = [0u8; N];
    streams::read_full(input, &mut bytes);
    bytes
}

pub fn next<T: Number, R: Read>(input: &mut R) -> T
    ensures { Gives T.bytes (R.remaining input.old) result (R.remaining input.new) }
{
    T::next_in(input)
}

pub fn read_all<T: Number, R: Read>(input: &mut R, xs: &mut [T])
    ensures { GivesEach T.bytes (R.remaining input.old) xs.new (R.remaining input.new) }
{
    for x in xs.iter_mut() {
        *x = T::next_in(input);
    }
}

// The first elements of a slice, or none where it has fewer.
// Kept: a count beside the slice: a count past the end reads nothing, which a slice could not say.
pub fn read_first<T: Number, R: Read>(input: &mut R, count: usize, xs: &mut [T])
    ensures read { count ≤ length xs.old → GivesEach T.bytes (R.remaining input.old) (take count xs.new) (R.remaining input.new) }
    ensures rest { drop count xs.new ≡ drop count xs.old }
    ensures fewer { length xs.old < count → xs.new ≡ xs.old }
{
    if count <= xs.len() {
        read_all(input, &mut xs[..count]);
    }
}

// The first bytes of a slice, or none where it has fewer; those that the input has no more of stay as they were.
// Kept: beside `read_first`, which asks the reader once for each number: a list of bytes is there in one read.
pub fn read_bytes<R: Read>(input: &mut R, count: usize, xs: &mut [u8])
    ensures read { count ≤ length xs.old → (n : ℕ) × Consumes (R.remaining input.old) (R.remaining input.new) (take n (take count xs.new)) }
    ensures rest { drop count xs.new ≡ drop count xs.old }
    ensures fewer { length xs.old < count → xs.new ≡ xs.old }
{
    if count <= xs.len() {
        streams::read_full(input, &mut xs[..count]);
    }
}

// Whether the elements are the next numbers; all of them are read.
pub fn are_next<T: Number, R: Read>(input: &mut R, xs: &[T]) -> bool
    ensures { (ys : List T) × GivesEach T.bytes (R.remaining input.old) ys (R.remaining input.new) × (result ≡ pointwise T.eq xs.now ys) }
{
    let mut same = true;
    for x in xs {
        same &= *x == T::next_in(input);
    }
    same
}

// A length of eight bytes, which is at most `most`.
pub fn next_length<R: Read>(input: &mut R, most: usize) -> usize
    ensures bound { result ≤ most }
    ensures value { (n : ℕ) × (result ≡ min n most) × Gives (to_le_bytes w64) (R.remaining input.old) n (R.remaining input.new) }
{
    next::<usize, _>(input).min(most)
}

// The same in two bytes.
// Kept: beside `next_length`: one over the type of number would say the value by the clause of `Into`, and each caller would name its type.
pub fn next_short_length<R: Read>(input: &mut R, most: usize) -> usize
    ensures bound { result ≤ most }
    ensures value { (n : ℕ) × (result ≡ min n most) × Gives (to_le_bytes w16) (R.remaining input.old) n (R.remaining input.new) }
{
    (next::<u16, _>(input) as usize).min(most)
}

// Depth and the flag of extended precision, a byte each.
pub fn next_precision<R: Read>(input: &mut R) -> Precision
    ensures { (flag : ℕ) × (result.extended ≡ not (eqb flag 0)) × GivesEach one_byte (R.remaining input.old) (result.bit_depth ∷ flag ∷ []) (R.remaining input.new) }
{
    Precision::new(next(input), next::<u8, _>(input) != 0)
}

// A byte, 0 for the DCT.
// Kept: a From<u8> can only stand where Kind is declared, and these numbers are the files' alone.
pub fn next_kind<R: Read>(input: &mut R) -> Kind
    ensures { (byte : ℕ) × (result ≡ cond (eqb byte 0) Kind.Dct Kind.Dst) × Gives one_byte (R.remaining input.old) byte (R.remaining input.new) }
{
    match next::<u8, _>(input) {
        0 => Kind::Dct,
        _ => Kind::Dst,
    }
}

// The number that a byte stands for, where 255 is the largest number there is.
pub fn named(byte: u8) -> usize
    ensures { result ≡ named byte }
{
    if byte == 255 {
        usize::MAX
    } else {
        byte as usize
    }
}

// A byte each, as `named` reads it.
// Kept: a loop of its own, as `read_indices` has: one with `read_all`, or `fill_with`, would take how an element is read as a closure, with a clause for what it gives.
pub fn read_named<R: Read>(input: &mut R, xs: &mut [usize])
    ensures { (bytes : List ℕ) × (xs.new ≡ map named bytes) × GivesEach one_byte (R.remaining input.old) bytes (R.remaining input.new) }
{
    for x in xs.iter_mut() {
        *x = named(next(input));
    }
}

// Two bytes each.
pub fn read_indices<R: Read>(input: &mut R, xs: &mut [usize])
    ensures { GivesEach (to_le_bytes w16) (R.remaining input.old) xs.new (R.remaining input.new) }
{
    for x in xs.iter_mut() {
        *x = next::<u16, _>(input) as usize;
    }
}

// A byte of length, then as many of text, which are written as they are; answers whether there was a text.
// Kept: a copy by name alone: `io::copy` of a `take` into `io::writer(rt)` is the same with errors to leave aside, and no shorter.
pub fn copy_text<R: Read>(rt: &impl Print, input: &mut R) -> bool
    ensures { (text : List ℕ) × Consumes (R.remaining input.old) (R.remaining input.new) text × (result ≡ ltb 0 (length text)) × (length text ≤ get_or text 0 0 + 1) }
{
    let mut head = [0u8; 1];
    let mut room = [0u8; 256];
    if streams::read_full(input, &mut head) < 1 {
        return false;
    }
    let text = &mut room[..head[0] as usize];
    streams::read_full(input, text);
    streams::write_all(rt, text);
    true
}
