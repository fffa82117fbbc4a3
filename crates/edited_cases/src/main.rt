// Replays openings, edits and lists of edits from standard input, and random edits in every setting. A case is a text, which is written as it is; a byte that says
// which; kind, size, depth and flag, of 1, 8, 1 and 1 bytes; the way of the opening, QP', DC, how many entries the list has, and these, of 1, 4, 1, 8 and 1 each;
// then what `borders` or `random` says. tests/edited_cases.py writes cases and text.
#![tactic(auto)]

use std::io::Read;

mod borders;
mod buffers;
mod compare;
mod edits;
mod lists;
mod random;
mod settings;

// What is replayed: a call on buffers of any length, or, by any other number, random edits.
#[derive(Clone, Copy)]
enum Case {
    Borders(borders::Call),
    Random,
}

impl From<u8> for Case {
    fn from(number: u8) -> Case {
        match number {
            0 => Case::Borders(borders::Call::Opening),
            1 => Case::Borders(borders::Call::Edit),
            2 => Case::Borders(borders::Call::List),
            _ => Case::Random,
        }
    }
}

// One case; answers whether there was one.
fn replay(rt: &impl Print, stdin: &mut impl Read) -> bool {
    if !cases::copy_text(rt, stdin) {
        return false;
    }
    let what = Case::from(cases::next::<u8, _>(stdin));
    let setting = settings::next(stdin);
    match what {
        Case::Borders(call) => borders::replay(rt, stdin, call, &setting),
        Case::Random => random::replay(rt, stdin, &setting),
    }
    cases::put_end(rt);
    true
}

fn main(rt: HostRuntime) {
    let mut stdin = rt.stdin();
    cases::replay_all(|| replay(&rt, &mut stdin));
}
