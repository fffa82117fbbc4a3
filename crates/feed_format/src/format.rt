// Kinds of records, what a body holds, and what goes by the mode of a block.
ghost use Rattle.std.specs.Prelude.{◌≡◌, ◌+◌, ◌≤◌, ◌<◌, T, length, get_or, take, drop};
ghost use Rattle.feed_format.specs.Format.{kind_of, size_known, body_length, text_room, record_length, record_room, flag_of, mode_of, known_mode, dst_refused, list_ignored};

use crate::{Kind, Mode};

// What a byte of kind stands for.
// Kept: an `Option` and no `TryFrom`: lengths and rooms are 0 where a byte is no kind, and only `take_record` refuses it.
#[tactic(auto, unfolding(crate::specs::Format::kind_of))]
pub fn kind_of(kind: u8) -> Option<Kind>
    ensures { result ≡ kind_of kind }
{
    match kind {
        1 => Some(Kind::Parameters),
        2 => Some(Kind::List),
        3 => Some(Kind::NoList),
        4 => Some(Kind::Levels(4)),
        5 => Some(Kind::Levels(8)),
        6 => Some(Kind::Levels(16)),
        7 => Some(Kind::Levels(32)),
        8 => Some(Kind::Edit),
        9 => Some(Kind::Reading),
        _ => None,
    }
}

impl Kind {
    // How many bytes of body follow it.
    pub fn body_length(self) -> usize
        requires { T (size_known self) }
        ensures { result ≡ body_length self }
    {
        match self {
            Kind::Parameters => 4,
            Kind::List => 65,
            Kind::Levels(n) => 4 * (n * n),
            Kind::Edit => 6,
            Kind::NoList | Kind::Reading => 0,
        }
    }

    // How many bytes its text may take; a reading may be of the largest size.
    pub fn text_room(self) -> usize
        requires { T (size_known self) }
        ensures { result ≡ text_room self }
    {
        match self {
            Kind::Levels(n) => 12 * (n * n) + 29,
            Kind::Reading => 12317,
            Kind::Parameters | Kind::List | Kind::NoList | Kind::Edit => 0,
        }
    }
}

// How many bytes of body follow a byte of kind; a byte that is no kind has none.
// Kept: by the byte itself, here and in `record_room`: a way over `kind_of` and the `Kind`'s own lengths squares a size in the chain of each walk over a feed, and took twice the time.
#[tactic(auto, using(crate::proofs::FormatLaws::length_none), unfolding(crate::specs::Format::record_length, crate::specs::Format::kind_of))]
pub fn record_length(kind: u8) -> usize
    ensures value { result ≡ record_length kind }
    ensures upper_bound { result ≤ 4096 }
{
    match kind {
        1 => 4,
        2 => 65,
        4 => 64,
        5 => 256,
        6 => 1024,
        7 => 4096,
        8 => 6,
        _ => 0,
    }
}

// The record at an offset of a feed: its kind, and as much of its body as there is.
pub fn record_at(input: &[u8], at: usize) -> (u8, &[u8])
    requires { at < length input.now }
    ensures kind { result.0 ≡ get_or input.now at 0 }
    ensures body { result.1.now ≡ take (record_length (get_or input.now at 0)) (drop (at + 1) input.now) }
{
    let kind = input[at];
    let from = at + 1;
    let stop = (from + record_length(kind)).min(input.len());
    (kind, &input[from..stop])
}

// How many bytes the text of a record may take.
#[tactic(auto, using(crate::proofs::FormatLaws::room_none), unfolding(crate::specs::Format::record_room, crate::specs::Format::kind_of))]
pub fn record_room(kind: u8) -> usize
    ensures value { result ≡ record_room kind }
    ensures upper_bound { result ≤ 12317 }
{
    match kind {
        4 => 221,
        5 => 797,
        6 => 3101,
        7 => 12317,
        9 => 12317,
        _ => 0,
    }
}

#[tactic(auto, unfolding(crate::specs::Format::flag_of))]
pub fn flag_of(flag: u8) -> Option<bool>
    ensures { result ≡ flag_of flag }
{
    match flag {
        0 => Some(false),
        1 => Some(true),
        _ => None,
    }
}

#[tactic(auto, unfolding(crate::specs::Format::mode_of))]
pub fn mode_of(mode: u8) -> Mode
    ensures { result ≡ mode_of mode }
{
    match mode {
        0 => Mode::Transform(transform_1d::Kind::Dct),
        1 => Mode::Transform(transform_1d::Kind::Dst),
        _ => Mode::Skip,
    }
}

// Kept: an `Option` and no `TryFrom`, as the flag beside it has (no `TryFrom<u8>` for std's `bool` can stand here): one refusal is for both.
#[tactic(auto, unfolding(crate::specs::Format::known_mode))]
pub fn known_mode(mode: u8) -> Option<Mode>
    ensures { result ≡ known_mode mode }
{
    if mode > 2 {
        return None;
    }
    Some(mode_of(mode))
}

// Row 4.
#[tactic(auto, unfolding(crate::specs::Format::dst_refused))]
pub fn dst_refused(mode: Mode, n: usize) -> bool
    ensures { result ≡ dst_refused mode n }
{
    match mode {
        Mode::Transform(kind) => transform_1d::dst_refused(kind, n),
        Mode::Skip => false,
    }
}

// Whether a block of this mode and size is scaled without a list, though one may be in force.
#[tactic(auto, unfolding(crate::specs::Format::list_ignored))]
pub fn list_ignored(mode: Mode, n: usize) -> bool
    ensures { result ≡ list_ignored mode n }
{
    match mode {
        Mode::Transform(_) => false,
        Mode::Skip => 4 < n,
    }
}
