// What a call is of, and what is amiss with what it lends, by the numbers of its bytes: the last function is any number from its own on, and of a number past these nothing is amiss.
#[derive(Clone, Copy)]
pub enum Function {
    Store,
    Drop,
    Look,
    Wide(Scaling),
    Narrow(Scaling),
}

// What is made of a block's levels.
#[derive(Clone, Copy)]
pub enum Scaling {
    Coefficients,
    Residuals,
}

// What is lent too short, where anything is.
#[derive(Clone, Copy)]
pub enum Amiss {
    Nothing,
    ShortTable,
    ShortLevels,
    ShortOut,
}

impl From<u8> for Function {
    fn from(number: u8) -> Function {
        match number {
            0 => Function::Store,
            1 => Function::Drop,
            2 => Function::Look,
            3 => Function::Wide(Scaling::Coefficients),
            4 => Function::Wide(Scaling::Residuals),
            5 => Function::Narrow(Scaling::Coefficients),
            _ => Function::Narrow(Scaling::Residuals),
        }
    }
}

impl From<u8> for Amiss {
    fn from(number: u8) -> Amiss {
        match number {
            1 => Amiss::ShortTable,
            2 => Amiss::ShortLevels,
            3 => Amiss::ShortOut,
            _ => Amiss::Nothing,
        }
    }
}
