// Numbers, answers and lent elements as text, each number after a space. No function here states a result: std's `Print` takes a shared handle, and its methods
// promise nothing of what reaches the output. The programs' stored outputs hold that.
use refusal::Refusal;
use std::fmt::Display;

pub fn put<T: Display + Drop>(rt: &impl Print, n: T) {
    streams::write_all(rt, b" ");
    streams::print(rt, n);
}

pub fn put_end(rt: &impl Print) {
    streams::write_all(rt, b"\n");
}

pub fn put_flag(rt: &impl Print, flag: bool) {
    put(rt, flag as u8);
}

pub fn put_each<T: Display + Copy>(rt: &impl Print, xs: &[T]) {
    for x in xs {
        put(rt, *x);
    }
}

// A bar, then every element.
pub fn put_all<T: Display + Copy>(rt: &impl Print, xs: &[T]) {
    streams::write_all(rt, b" |");
    put_each(rt, xs);
}

// Number and place.
pub fn put_place(rt: &impl Print, why: Refusal) {
    put(rt, why.number());
    put(rt, why.place());
}

// Number, place, row and column.
pub fn put_refusal(rt: &impl Print, why: Refusal) {
    put_place(rt, why);
    put(rt, why.row());
    put(rt, why.column());
}

pub fn put_answer(rt: &impl Print, answer: Result<(), Refusal>) {
    match answer {
        Ok(()) => {
            streams::write_all(rt, b" 0 0 0 0");
        }
        Err(why) => put_refusal(rt, why),
    }
}

// The answer, and the value of a call that is not refused.
pub fn put_value<T: Display + Drop>(rt: &impl Print, answer: Result<T, Refusal>) {
    match answer {
        Ok(value) => {
            put_answer(rt, Ok(()));
            put(rt, value);
        }
        Err(why) => put_refusal(rt, why),
    }
}

// The answer, and how many coefficients were limited, none where the call is refused.
pub fn put_count(rt: &impl Print, answer: Result<u16, Refusal>) {
    put_answer(rt, answer.map(|_| ()));
    put(rt, answer.unwrap_or(0));
}

pub fn put_same(rt: &impl Print, same: bool) {
    streams::write_all(rt, if same { b" equal" } else { b" differs" });
}
