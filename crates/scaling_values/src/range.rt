// Whether a level lies past the ends of a range.
ghost use Rattle.std.specs.Prelude.{◌≡◌, ◌||◌, cond};
ghost use Rattle.std.specs.Int.Signed.{lt_z};

// 1 where a level lies outside a range.
// Kept: the two tests of the definition, in the loops over a block; a range's `contains` says the same and is no plainer.
pub(crate) fn outside(level: i32, least: i32, most: i32) -> u32
    ensures { result ≡ cond (lt_z level least || lt_z most level) 1 0 }
{
    u32::from(level < least || most < level)
}
