// Answers as text, each number after a space. Of a refusal number and place are written alone.
use refusal::Refusal;
use std::fmt::Display;

// Kept: beside the three of `cases`, which write row and column too: one for both would take the zeros and the writer of a refusal as parameters.
pub fn put_answer(rt: &impl Print, answer: Result<(), Refusal>) {
    match answer {
        Ok(()) => {
            streams::write_all(rt, b" 0 0");
        }
        Err(why) => cases::put_place(rt, why),
    }
}

// The answer, and the value that a call which is not refused hands back.
pub fn put_value<T: Display + Drop>(rt: &impl Print, answer: Result<T, Refusal>) {
    match answer {
        Ok(value) => {
            put_answer(rt, Ok(()));
            cases::put(rt, value);
        }
        Err(why) => cases::put_place(rt, why),
    }
}

// The answer, and how many coefficients were limited, none where the call is refused.
pub fn put_count(rt: &impl Print, answer: Result<u16, Refusal>) {
    put_answer(rt, answer.map(|_| ()));
    cases::put(rt, answer.unwrap_or(0));
}
