// The lists that are lent to a call.
ghost use Rattle.std.specs.Prelude.{◌≡◌, length};

// The default lists that are lent: that of 4×4, and of the other sizes that of intra and that of inter.
#[derive(Clone, Copy)]
pub struct DefaultLists<'a> {
    pub four: &'a [u8],
    pub intra: &'a [u8],
    pub inter: &'a [u8],
    ghost whole: { (length four.now ≡ 64) × (length intra.now ≡ 64) × (length inter.now ≡ 64) },
}
