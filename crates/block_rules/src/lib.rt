// The record of an edited block (docs/RULES.md, "The edited block"), and what the calls on it answer. What an opening and an edit leave stands in
// specs/, with small examples of it.
#![tactic(auto)]

ghost use Rattle.std.specs.Prelude.{◌≡◌};
ghost use Rattle.block_rules.specs.Edit.{zero_source, zero_block};

use parameters::QpPrime;
use refusal::Precision;
use transform_1d::Kind;

// What the coefficients come from: levels, with what they are scaled by. What an opening is not given is 0.
// Kept: the flags stay flags, and no Option: C hands any record back, and every field of it stays as it was, what was not given too.
#[derive(Clone, Copy, Debug, PartialEq, Eq)]
pub struct Source {
    pub levels: bool,
    pub qp_prime: QpPrime,
    pub listed: bool,
    pub dc: u8,
    pub entries: [u8; 64],
}

// What an opening fixes, and how many columns are in use. The buffers stay with the caller.
#[derive(Clone, Copy, Debug, PartialEq, Eq)]
pub struct EditedBlock {
    pub kind: Kind,
    pub size: usize,
    pub precision: Precision,
    pub columns: usize,
    pub source: Source,
}

// Whether a level was limited, and after that its result.
#[derive(Clone, Copy)]
pub struct Limits {
    pub level: bool,
    pub result: bool,
}

// A block that was opened on levels, and how many coefficients were limited.
#[derive(Clone, Copy)]
pub struct LevelsOpened {
    pub limited: u16,
    pub block: EditedBlock,
}

// The source of a block that was opened on coefficients.
pub fn zero_source() -> Source
    ensures { result ≡ zero_source }
{
    Source {
        levels: false,
        qp_prime: QpPrime(0),
        listed: false,
        dc: 0,
        entries: [0u8; 64],
    }
}

// The record of zeros, which every edit refuses: what C gets where an opening was refused.
pub fn zero_block() -> EditedBlock
    ensures { result ≡ zero_block }
{
    EditedBlock {
        kind: Kind::Dct,
        size: 0,
        precision: Precision::new(0, false),
        columns: 0,
        source: zero_source(),
    }
}
