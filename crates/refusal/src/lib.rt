// Why a call was refused: a variant for each row of the table of refusals, with the place where the row names one. It is the error of every call.
#![tactic(auto)]

ghost use Rattle.std.specs.Prelude.{◌≡◌};
ghost use Rattle.refusal.specs.Condition.{size_refused, depth_refused, width_refused, rotation_refused};
ghost use Rattle.refusal.specs.Check.{Checked, SizeChecked, DepthChecked, ListChecked, RoomChecked};
ghost use Rattle.refusal.specs.Refusal.{nowhere, at, coefficient, parts, number, place, row, column};

#[derive(Clone, Copy, Debug, PartialEq, Eq)]
pub enum Refusal {
    SizeInvalid,
    DepthInvalid,
    WidthTooNarrow,
    DstSizeInvalid,
    ListLengthInvalid,
    InputTooShort,
    OutputTooShort,
    PlaceOutside,
    CoefficientAbove(u8, u8),
    WayMismatched,
    LevelMissing(u8, u8),
    SampleOutside(usize),
    PictureInvalid,
    BitsEnded(usize),
    ReferenceMissing(usize),
    ListValueInvalid(usize),
    StreamFull,
    ListMissing,
    CoefficientBelow(u8, u8),
    KindUnknown,
    BodyTooShort,
    LevelsBeforeParameters,
    ParameterInvalid,
    BlockMissing,
    RotationSizeInvalid,
}

// A refusal's number in the table, and the place that it names: one number (an index or an offset), or the row and column of a
// coefficient; 0 where it names none.
// Kept: numbers, and 0 where there is no place: so docs/RULES.md, C and the programs' texts have them. `parts` is a method and no From, since the four below it read one part each.
#[derive(Clone, Copy)]
pub struct RefusalParts {
    number: u8,
    place: usize,
    row: u8,
    column: u8,
}

impl RefusalParts {
    // Of a row that names no place.
    fn nowhere(number: u8) -> RefusalParts
        ensures { result ≡ nowhere number }
    {
        RefusalParts {
            number,
            place: 0,
            row: 0,
            column: 0,
        }
    }

    // Of a row that names an index or an offset.
    fn at(number: u8, place: usize) -> RefusalParts
        ensures { result ≡ at number place }
    {
        RefusalParts {
            place,
            ..RefusalParts::nowhere(number)
        }
    }

    // Of a row that names a coefficient.
    fn coefficient(number: u8, row: u8, column: u8) -> RefusalParts
        ensures { result ≡ coefficient number row column }
    {
        RefusalParts {
            row,
            column,
            ..RefusalParts::nowhere(number)
        }
    }
}

impl Refusal {
    // The table of refusals.
    pub fn parts(self) -> RefusalParts
        ensures { result ≡ parts self }
    {
        match self {
            Refusal::SizeInvalid => RefusalParts::nowhere(1),
            Refusal::DepthInvalid => RefusalParts::nowhere(2),
            Refusal::WidthTooNarrow => RefusalParts::nowhere(3),
            Refusal::DstSizeInvalid => RefusalParts::nowhere(4),
            Refusal::ListLengthInvalid => RefusalParts::nowhere(5),
            Refusal::InputTooShort => RefusalParts::nowhere(6),
            Refusal::OutputTooShort => RefusalParts::nowhere(7),
            Refusal::PlaceOutside => RefusalParts::nowhere(8),
            Refusal::CoefficientAbove(row, column) => RefusalParts::coefficient(9, row, column),
            Refusal::WayMismatched => RefusalParts::nowhere(10),
            Refusal::LevelMissing(row, column) => RefusalParts::coefficient(11, row, column),
            Refusal::SampleOutside(at) => RefusalParts::at(12, at),
            Refusal::PictureInvalid => RefusalParts::nowhere(13),
            Refusal::BitsEnded(at) => RefusalParts::at(14, at),
            Refusal::ReferenceMissing(at) => RefusalParts::at(15, at),
            Refusal::ListValueInvalid(at) => RefusalParts::at(16, at),
            Refusal::StreamFull => RefusalParts::nowhere(17),
            Refusal::ListMissing => RefusalParts::nowhere(18),
            Refusal::CoefficientBelow(row, column) => RefusalParts::coefficient(19, row, column),
            Refusal::KindUnknown => RefusalParts::nowhere(20),
            Refusal::BodyTooShort => RefusalParts::nowhere(21),
            Refusal::LevelsBeforeParameters => RefusalParts::nowhere(22),
            Refusal::ParameterInvalid => RefusalParts::nowhere(23),
            Refusal::BlockMissing => RefusalParts::nowhere(24),
            Refusal::RotationSizeInvalid => RefusalParts::nowhere(25),
        }
    }

    // The refusal's number in the table.
    pub fn number(self) -> u8
        ensures { result ≡ number self }
    {
        self.parts().number
    }

    // The place that the refusal names by one number, and 0 where it names none.
    pub fn place(self) -> usize
        ensures { result ≡ place self }
    {
        self.parts().place
    }

    // The row of the coefficient that the refusal names, and 0 where it names none.
    pub fn row(self) -> u8
        ensures { result ≡ row self }
    {
        self.parts().row
    }

    // Its column.
    pub fn column(self) -> u8
        ensures { result ≡ column self }
    {
        self.parts().column
    }
}

// The depth of samples, and whether precision is extended: what the range of coefficients follows from.
#[derive(Clone, Copy, Debug, PartialEq, Eq)]
pub struct Precision {
    pub bit_depth: u8,
    pub extended: bool,
}

impl Precision {
    // Any depth: each call tests it by row 2.
    pub fn new(bit_depth: u8, extended: bool) -> Precision
        ensures { (result.bit_depth ≡ bit_depth) × (result.extended ≡ extended) }
    {
        Precision {
            bit_depth,
            extended,
        }
    }
}

// Row 1: the size is none of 4, 8, 16, 32.
// Kept: a size stays a plain number, and that it is one a clause (`T (is_size n)`): nearly every function multiplies, divides or compares it, and would take a
// type of its own apart again.
#[tactic(auto, unfolding(crate::specs::Condition::size_refused, h265::specs::Range::is_size))]
pub fn size_refused(n: usize) -> bool
    ensures { result ≡ size_refused n }
{
    !matches!(n, 4 | 8 | 16 | 32)
}

// Row 2: the depth is outside 8 .. 16.
#[tactic(auto, unfolding(crate::specs::Condition::depth_refused))]
pub fn depth_refused(bit_depth: u8) -> bool
    ensures { result ≡ depth_refused bit_depth }
{
    !(8..=16).contains(&bit_depth)
}

// Row 3: 16-bit output, and the depth is above 9 or precision is extended.
#[tactic(auto, unfolding(crate::specs::Condition::width_refused))]
pub fn width_refused(precision: Precision) -> bool
    ensures { result ≡ width_refused precision.bit_depth precision.extended }
{
    9 < precision.bit_depth || precision.extended
}

// Row 25: rotation at a size other than 4.
#[tactic(auto, unfolding(crate::specs::Condition::rotation_refused))]
pub fn rotation_refused(rotate: bool, n: usize) -> bool
    ensures { result ≡ rotation_refused rotate n }
{
    rotate && n != 4
}

// `Err(why)` where a row of the table applies: a ladder of refusals has a line for each row, passed on by `?`.
pub fn check(refused: bool, why: Refusal) -> Result<(), Refusal>
    ensures { Checked refused why result }
{
    if refused {
        return Err(why);
    }
    Ok(())
}

// Row 1. Behind it the caller has one of the four sizes.
#[tactic(auto, using(crate::proofs::ConditionLaws::size_accepted))]
pub fn check_size(n: usize) -> Result<(), Refusal>
    ensures { SizeChecked n result }
{
    check(size_refused(n), Refusal::SizeInvalid)
}

// Row 2. Behind it the depth is 8 .. 16.
#[tactic(auto, using(crate::proofs::ConditionLaws::depth_accepted))]
pub fn check_depth(bit_depth: u8) -> Result<(), Refusal>
    ensures { DepthChecked bit_depth result }
{
    check(depth_refused(bit_depth), Refusal::DepthInvalid)
}

// Row 5, of the number of a list's entries.
#[tactic(auto, unfolding(crate::specs::Condition::list_refused))]
pub fn check_list(entries: usize) -> Result<(), Refusal>
    ensures { ListChecked entries result }
{
    check(entries != 64, Refusal::ListLengthInvalid)
}

// Row 6 or 7, as `why` says, of a buffer that a block is read from or written to. A size whose square wraps is past every buffer.
#[tactic(auto, unfolding(crate::specs::Condition::block_refused))]
pub fn check_room(n: usize, len: usize, why: Refusal) -> Result<(), Refusal>
    ensures { RoomChecked n len why result }
{
    match n.checked_mul(n) {
        Some(cells) => check(len < cells, why),
        None => Err(why),
    }
}
