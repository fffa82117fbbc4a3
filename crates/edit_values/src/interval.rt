// An interval of places of the range.
ghost use Rattle.std.specs.Prelude.{◌≡◌, true, false, ◌≤◌, ◌<◌};

// Places of the range from `from` up to, and without, `to`.
#[derive(Clone, Copy)]
pub struct Span {
    pub from: u32,
    pub to: u32,
    ghost inside: { to ≤ 8388608 },
}

impl Span {
    // Whether it has no place.
    pub fn is_empty(self) -> bool
        ensures { (result ≡ true → self.to ≤ self.from) × (result ≡ false → self.from < self.to) }
    {
        self.to <= self.from
    }
}
