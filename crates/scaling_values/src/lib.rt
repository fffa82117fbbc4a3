// One value of a block: a level scaled, with the m of a list or without a list, and one residual of transform skip.
// Internal: no refusal; callers meet each `requires`.
#![tactic(auto)]

ghost use Rattle.std.specs.Prelude.{◌≡◌};
ghost use Rattle.scaling_values.specs.Given.{list_of, entries_of};

pub mod factor;
pub mod flat;
pub mod level;
pub mod listed;
pub mod long;
mod range;
pub mod skip;

// What gives the scaling factor m: nothing, so that it is 16 throughout, or a list with its DC number.
// Kept: an enum of its own and no Option of a pair: without a list m is 16, which None would not say, and it has the two cases of clause 8.6's own type (`ScalingList` of h265).
#[derive(Clone, Copy)]
pub enum ScalingList<'a> {
    Flat,
    Listed(&'a [u8], u8),
}

impl<'a> ScalingList<'a> {
    // How many entries it has, for row 5; the 64 of no list refuse nothing.
    pub fn len(self) -> usize
        ensures { result ≡ entries_of (list_of self.entry) }
    {
        match self {
            ScalingList::Flat => 64,
            ScalingList::Listed(entries, _) => entries.len(),
        }
    }
}

// The coefficient of a level, whether the level was limited, and whether the result was.
#[derive(Clone, Copy)]
pub struct ScaledLevel {
    pub value: i32,
    pub level_limited: bool,
    pub result_limited: bool,
}

// The coefficient of a level in 32 bits, and 1 where the level or the result was limited.
// Kept: `limited` is a number and no flag, since the loops add it up, and the compiler adds several at once.
#[derive(Clone, Copy)]
pub struct FlatLevel {
    pub value: i32,
    pub limited: u32,
}

// The numbers of a block without a list: `low` and `top` are the least and the largest level that nothing limits, `under` and `over` the
// coefficients past them.
#[derive(Clone, Copy)]
pub struct FlatParams {
    pub base: i32,
    pub add: i32,
    pub shift: u32,
    pub low: i32,
    pub top: i32,
    pub under: i32,
    pub over: i32,
}

// The numbers of a block with a list where R = 15, without the power of two that the factor and the shift share: `base` is the odd part of what
// m is multiplied by, and a product is shifted `down` with the rounding `add`, or `up` with none; between `low` and `top` nothing limits it.
// Kept: apart from `LongParams`: the loop over these has 35 instructions for four levels, the loop over those 47, a third more for each block with a list where R = 15.
#[derive(Clone, Copy)]
pub struct ListedParams {
    pub base: i32,
    pub add: i32,
    pub down: u32,
    pub up: u32,
    pub low: i32,
    pub top: i32,
}

// The same at every range. A product with its rounding is held in two parts, of which the one that counts in 128s tells by `low` and `top` what is
// limited; `least` and `most` are the range's ends.
#[derive(Clone, Copy)]
pub struct LongParams {
    pub base: i32,
    pub add: i32,
    pub down: u32,
    pub up: u32,
    pub low: i32,
    pub top: i32,
    pub least: i32,
    pub most: i32,
}

// A number as 128 times `over` and `rest`, which is from 0 to 127.
#[derive(Clone, Copy)]
pub struct Parts {
    pub over: i32,
    pub rest: i32,
}
