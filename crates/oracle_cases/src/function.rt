// The functions that a case can be of, by the recorder's numbers; a number that the recorder does not have is the last of the DSTs at 32 bits.
#[derive(Clone, Copy)]
pub enum Function {
    Range,
    Dequant,
    TransformSkip,
    Factor,
    Level,
    Scale32(Scale),
    Scale16(Scale),
    Invert32(Transform),
    Invert16(Short),
}

// What is made of a block's levels, without a list or with one.
#[derive(Clone, Copy)]
pub enum Scale {
    Coefficients,
    CoefficientsListed,
    Residuals,
    ResidualsListed,
}

#[derive(Clone, Copy)]
pub enum Transform {
    Dct,
    DctExtended,
    Dst,
    DstExtended,
}

// The transforms 16 bits wide.
#[derive(Clone, Copy)]
pub enum Short {
    Dct,
    Dst,
}

impl From<u8> for Function {
    #[rattlefmt::skip]
    fn from(number: u8) -> Function {
        match number {
            0 => Function::Range,
            1 => Function::Dequant,
            2 => Function::TransformSkip,
            3 => Function::Factor,
            4 => Function::Level,
            5 => Function::Scale32(Scale::Coefficients),
            6 => Function::Scale32(Scale::CoefficientsListed),
            7 => Function::Scale32(Scale::Residuals),
            8 => Function::Scale32(Scale::ResidualsListed),
            9 => Function::Scale16(Scale::Coefficients),
            10 => Function::Scale16(Scale::CoefficientsListed),
            11 => Function::Scale16(Scale::Residuals),
            12 => Function::Scale16(Scale::ResidualsListed),
            13 => Function::Invert32(Transform::Dct),
            14 => Function::Invert32(Transform::DctExtended),
            15 => Function::Invert32(Transform::Dst),
            17 => Function::Invert16(Short::Dct),
            18 => Function::Invert16(Short::Dst),
            _ => Function::Invert32(Transform::DstExtended),
        }
    }
}
