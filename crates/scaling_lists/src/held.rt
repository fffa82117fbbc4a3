// The lists that are read so far, one behind the other.
ghost use Rattle.std.specs.Prelude.{◌≡◌, length};

// Kept: entries and DC numbers side by side, as the two buffers that C lends: each is copied out whole.
#[derive(Drop)]
pub(crate) struct Lists {
    pub(crate) entries: [u8; 1280],
    pub(crate) dcs: [u8; 20],
    ghost whole: { (length entries ≡ 1280) × (length dcs ≡ 20) },
}
