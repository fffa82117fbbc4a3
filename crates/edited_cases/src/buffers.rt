// The four buffers of a block, lent.
use std::io::Read;

#[derive(Drop)]
pub struct Buffers<'a> {
    pub levels: &'a mut [i32],
    pub coeff: &'a mut [i32],
    pub inter: &'a mut [i32],
    pub residual: &'a mut [i32],
}

impl<'a> Buffers<'a> {
    pub fn read(&mut self, stdin: &mut impl Read) {
        cases::read_all(stdin, self.levels);
        cases::read_all(stdin, self.coeff);
        cases::read_all(stdin, self.inter);
        cases::read_all(stdin, self.residual);
    }

    pub fn put(&self, rt: &impl Print) {
        cases::put_all(rt, self.levels);
        cases::put_all(rt, self.coeff);
        cases::put_all(rt, self.inter);
        cases::put_all(rt, self.residual);
    }

    // Whether both hold the same.
    // Kept: tried, and no derive compares lent mutable slices.
    pub fn same(&self, other: &Buffers) -> bool {
        &*self.levels == &*other.levels
            && &*self.coeff == &*other.coeff
            && &*self.inter == &*other.inter
            && &*self.residual == &*other.residual
    }
}
