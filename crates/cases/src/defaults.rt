// What the two programs on scaling lists share: the default lists of a file of cases, and the mark in the buffers that a case lends.
ghost use Rattle.std.specs.Prelude.{◌≡◌, ◌++◌, ℕ, eqb, take};
ghost use Rattle.std.specs.List.{list_all};
ghost use Rattle.std.specs.Io.KnownBytes.{Consumes};

use crate::reading::next_bytes;
use crate::writing;
use refusal::Refusal;
use std::io::Read;

#[derive(Clone, Copy)]
pub struct Defaults {
    pub four: [u8; 65],
    pub intra: [u8; 64],
    pub inter: [u8; 64],
}

impl Defaults {
    pub fn read<R: Read>(input: &mut R) -> Defaults
        ensures { (a b c : ℕ) × Consumes (R.remaining input.old) (R.remaining input.new) (take a result.four ++ take b result.intra ++ take c result.inter) }
    {
        Defaults {
            four: next_bytes(input),
            intra: next_bytes(input),
            inter: next_bytes(input),
        }
    }
}

// Whether every element is still the mark.
pub fn kept(xs: &[u8]) -> bool
    ensures { result ≡ list_all (λ x. eqb x 7) xs.now }
{
    xs.iter().all(|x| *x == 7)
}

// Number and place, and whether the buffers are as they were lent.
pub fn put_refused(rt: &impl Print, why: Refusal, same: bool) {
    writing::put_place(rt, why);
    streams::write_all(rt, if same { b" kept\n" } else { b" changed\n" });
}
