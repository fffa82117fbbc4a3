// The up-right diagonal order, as tables. Internal: the crates above walk blocks by them.
#![tactic(auto)]

ghost use Rattle.std.specs.Prelude.{◌≡◌};
ghost use Rattle.diagonal.specs.Scan.{up_right};

#[rattlefmt::skip]
const UP_RIGHT_4: [u8; 16] = [
    0, 4, 1, 8, 5, 2, 12, 9, 6, 3, 13, 10, 7, 14, 11, 15,
];

#[rattlefmt::skip]
const UP_RIGHT_8: [u8; 64] = [
     0,
     8,  1,
    16,  9,  2,
    24, 17, 10,  3,
    32, 25, 18, 11,  4,
    40, 33, 26, 19, 12,  5,
    48, 41, 34, 27, 20, 13,  6,
    56, 49, 42, 35, 28, 21, 14,  7,
    57, 50, 43, 36, 29, 22, 15,
    58, 51, 44, 37, 30, 23,
    59, 52, 45, 38, 31,
    60, 53, 46, 39,
    61, 54, 47,
    62, 55,
    63,
];

// Kept: two functions, each of one table: one that took the width would ask by a clause that it is 4 or 8, and its one caller tells the sizes apart anyway.
pub fn up_right_4() -> &'static [u8]
    ensures { result.now ≡ up_right 4 }
{
    &UP_RIGHT_4
}

pub fn up_right_8() -> &'static [u8]
    ensures { result.now ≡ up_right 8 }
{
    &UP_RIGHT_8
}
