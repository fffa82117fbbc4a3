// Each answer of the library as a record of numbers: a refusal's number, row, column and place, and the values, zeros on refusal.
// Kept: C's structs have number, row, column and place as fields of their own (include/residual.h), so that there is no struct for the four, and each answer has its own `From`.
ghost use Rattle.std.specs.Prelude.{◌≡◌};
ghost use Rattle.refusal.specs.Outcome.{refused, outcome};
ghost use Rattle.parameters.specs.Answers.{no_qp_prime, no_dequant, no_transform_skip};
ghost use Rattle.scaling.specs.Answers.{no_level};
ghost use Rattle.c_api.specs.Answers.{of_answered, of_count, of_level, of_number, of_qp_prime, of_bits, of_stored, of_dequant, of_transform_skip};

use crate::{
    Answered, BitsAnswered, CountAnswered, DequantAnswered, LevelAnswered, NumberAnswered,
    SignedAnswered, StoreAnswered, TransformSkipAnswered,
};
use parameters::{DequantParams, QpPrime, TransformSkipParams};
use refusal::Refusal;
use scaling_values::ScaledLevel;

impl From<Refusal> for Answered {
    ghost from_gives = { λ why told. of_answered told ≡ refused tt why };

    fn from(why: Refusal) -> Answered {
        Answered {
            number: why.number() as u32,
            row: why.row(),
            column: why.column(),
            place: why.place(),
        }
    }
}

impl From<Result<(), Refusal>> for Answered {
    ghost from_gives = { λ answer told. of_answered told ≡ outcome tt answer };

    fn from(answer: Result<(), Refusal>) -> Answered {
        match answer {
            Ok(()) => Answered::default(),
            Err(why) => why.into(),
        }
    }
}

impl From<Result<u32, Refusal>> for NumberAnswered {
    ghost from_gives = { λ answer told. of_number told ≡ outcome 0 answer };

    fn from(answer: Result<u32, Refusal>) -> NumberAnswered {
        match answer {
            Ok(value) => NumberAnswered {
                value,
                ..NumberAnswered::default()
            },
            Err(why) => {
                let no = Answered::from(why);
                NumberAnswered {
                    number: no.number,
                    row: no.row,
                    column: no.column,
                    place: no.place,
                    ..NumberAnswered::default()
                }
            }
        }
    }
}

impl From<Result<QpPrime, Refusal>> for SignedAnswered {
    ghost from_gives = { λ answer told. of_qp_prime told ≡ outcome no_qp_prime answer };

    fn from(answer: Result<QpPrime, Refusal>) -> SignedAnswered {
        match answer {
            Ok(qp_prime) => SignedAnswered {
                value: qp_prime.0,
                ..SignedAnswered::default()
            },
            Err(why) => {
                let no = Answered::from(why);
                SignedAnswered {
                    number: no.number,
                    row: no.row,
                    column: no.column,
                    place: no.place,
                    ..SignedAnswered::default()
                }
            }
        }
    }
}

impl From<Result<DequantParams, Refusal>> for DequantAnswered {
    ghost from_gives = { λ answer told. of_dequant told ≡ outcome no_dequant answer };

    fn from(answer: Result<DequantParams, Refusal>) -> DequantAnswered {
        match answer {
            Ok(by) => DequantAnswered {
                factor: by.factor,
                add: by.add,
                shift: by.shift,
                clip_min: by.clip_min,
                clip_max: by.clip_max,
                ..DequantAnswered::default()
            },
            Err(why) => {
                let no = Answered::from(why);
                DequantAnswered {
                    number: no.number,
                    row: no.row,
                    column: no.column,
                    place: no.place,
                    ..DequantAnswered::default()
                }
            }
        }
    }
}

impl From<Result<TransformSkipParams, Refusal>> for TransformSkipAnswered {
    ghost from_gives = { λ answer told. of_transform_skip told ≡ outcome no_transform_skip answer };

    fn from(answer: Result<TransformSkipParams, Refusal>) -> TransformSkipAnswered {
        match answer {
            Ok(by) => TransformSkipAnswered {
                factor: by.dequant.factor,
                add: by.dequant.add,
                shift: by.dequant.shift,
                clip_min: by.dequant.clip_min,
                clip_max: by.dequant.clip_max,
                tr_add: by.tr_add,
                tr_shift: by.tr_shift,
                ..TransformSkipAnswered::default()
            },
            Err(why) => {
                let no = Answered::from(why);
                TransformSkipAnswered {
                    number: no.number,
                    row: no.row,
                    column: no.column,
                    place: no.place,
                    ..TransformSkipAnswered::default()
                }
            }
        }
    }
}

impl From<Result<ScaledLevel, Refusal>> for LevelAnswered {
    ghost from_gives = { λ answer told. of_level told ≡ outcome no_level answer };

    fn from(answer: Result<ScaledLevel, Refusal>) -> LevelAnswered {
        match answer {
            Ok(scaled) => LevelAnswered {
                value: scaled.value,
                level_limited: scaled.level_limited,
                result_limited: scaled.result_limited,
                ..LevelAnswered::default()
            },
            Err(why) => {
                let no = Answered::from(why);
                LevelAnswered {
                    number: no.number,
                    row: no.row,
                    column: no.column,
                    place: no.place,
                    ..LevelAnswered::default()
                }
            }
        }
    }
}

impl From<Result<u16, Refusal>> for CountAnswered {
    ghost from_gives = { λ answer told. of_count told ≡ outcome 0 answer };

    fn from(answer: Result<u16, Refusal>) -> CountAnswered {
        match answer {
            Ok(limited) => CountAnswered {
                limited,
                ..CountAnswered::default()
            },
            Err(why) => {
                let no = Answered::from(why);
                CountAnswered {
                    number: no.number,
                    row: no.row,
                    column: no.column,
                    place: no.place,
                    ..CountAnswered::default()
                }
            }
        }
    }
}

impl From<Result<usize, Refusal>> for BitsAnswered {
    ghost from_gives = { λ answer told. of_bits told ≡ outcome 0 answer };

    fn from(answer: Result<usize, Refusal>) -> BitsAnswered {
        match answer {
            Ok(bits) => BitsAnswered {
                bits,
                ..BitsAnswered::default()
            },
            Err(why) => {
                let no = Answered::from(why);
                BitsAnswered {
                    number: no.number,
                    row: no.row,
                    column: no.column,
                    place: no.place,
                    ..BitsAnswered::default()
                }
            }
        }
    }
}

impl From<Result<usize, Refusal>> for StoreAnswered {
    ghost from_gives = { λ answer told. of_stored told ≡ outcome 0 answer };

    fn from(answer: Result<usize, Refusal>) -> StoreAnswered {
        match answer {
            Ok(stored) => StoreAnswered {
                stored,
                ..StoreAnswered::default()
            },
            Err(why) => {
                let no = Answered::from(why);
                StoreAnswered {
                    number: no.number,
                    row: no.row,
                    column: no.column,
                    place: no.place,
                    ..StoreAnswered::default()
                }
            }
        }
    }
}
