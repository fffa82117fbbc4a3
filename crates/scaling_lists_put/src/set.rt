// The lists that are to be written.
ghost use Rattle.std.specs.Prelude.{◌≡◌, ◌≤◌, length};

// Kept: entries and DC numbers side by side, as the two slices that C lends.
// The 20 lists, one behind the other, and their DC numbers.
#[derive(Clone, Copy)]
pub struct ListSet<'a> {
    pub lists: &'a [u8],
    pub dcs: &'a [u8],
    ghost whole: { (1280 ≤ length lists.now) × (20 ≤ length dcs.now) },
}

// One list.
#[derive(Clone, Copy)]
pub struct HeldList<'a> {
    pub entries: &'a [u8],
    pub dc: u8,
    ghost whole: { length entries.now ≡ 64 },
}
