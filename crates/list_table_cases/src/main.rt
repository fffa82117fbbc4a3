// Replays calls of both streams on one table from standard input. It begins with the 512 bytes that lists are cut from. A call is ten bytes: which; stream and
// number, where 255 is the largest number there is; where its list begins, and how long it is or the lent one is; DC, or the size of the block; what is lent too
// short; QP', depth and flag. Its line holds number and place, then a store's number or DC, and lent elements afterwards. The last line is the table.
// tests/list_table_cases.py writes calls and text.
#![tactic(auto)]

use calls::Asked;
use function::{Amiss, Function};
use parameters::QpPrime;
use refusal::Precision;
use std::io::Read;

mod calls;
mod function;
mod lines;

// A call by its bytes; `dc` is the size too of a block that is scaled.
#[derive(Clone, Copy)]
struct Call {
    function: Function,
    amiss: Amiss,
    from: u8,
    long: u8,
    dc: u8,
    asked: Asked,
}

impl From<[u8; 10]> for Call {
    fn from(bytes: [u8; 10]) -> Call {
        let [
            function,
            stream,
            number,
            from,
            long,
            dc,
            amiss,
            qp,
            bit_depth,
            extended,
        ] = bytes;
        Call {
            function: Function::from(function),
            amiss: Amiss::from(amiss),
            from,
            long,
            dc,
            asked: Asked {
                stream: cases::named(stream),
                number: cases::named(number),
                n: dc as usize,
                qp: QpPrime(qp as i32),
                precision: Precision {
                    bit_depth,
                    extended: extended == 1,
                },
            },
        }
    }
}

// Some levels, among them both ends of 16 bits and of 32.
fn level(i: usize) -> i32 {
    let levels = [
        1i32,
        -1,
        0,
        3,
        -7,
        40,
        -300,
        1000,
        -2500,
        32767,
        -32768,
        2147483647,
        -2147483648,
    ];
    levels[i % 13]
}

fn fill(levels: &mut [i32]) {
    for (i, value) in levels.iter_mut().enumerate() {
        *value = level(i);
    }
}

// Kept: lent buffers, which a struct would only carry to the call; so below.
fn make(rt: &impl Print, call: Call, table: &mut [u8], pattern: &[u8], levels: &[i32]) {
    let asked = call.asked;
    let amiss = call.amiss;
    match call.function {
        Function::Store => {
            calls::store(
                rt,
                table,
                asked.stream,
                pattern,
                call.from,
                call.long,
                call.dc,
            )
        }
        Function::Drop => calls::drop(rt, table, asked.stream, asked.number),
        Function::Look => calls::look(rt, table, asked.stream, asked.number, call.long),
        Function::Wide(what) => {
            let mut out = [7i32; 1025];
            calls::scale(rt, what, amiss, table, asked, levels, &mut out);
        }
        Function::Narrow(what) => {
            let mut out = [7i16; 1025];
            calls::scale(rt, what, amiss, table, asked, levels, &mut out);
        }
    }
}

// A call on the table, or on one that is too short, which has every place held.
fn make_on(rt: &impl Print, call: Call, table: &mut [u8], pattern: &[u8], levels: &[i32]) {
    let mut short = [1u8; 1583];
    match call.amiss {
        Amiss::ShortTable => make(rt, call, &mut short, pattern, levels),
        _ => make(rt, call, table, pattern, levels),
    }
    cases::put_end(rt);
}

// One call; answers whether there was one.
fn turn(
    rt: &impl Print,
    stdin: &mut impl Read,
    table: &mut [u8],
    pattern: &[u8],
    levels: &[i32],
) -> bool {
    let mut bytes = [0u8; 10];
    if streams::read_full(stdin, &mut bytes) < 10 {
        return false;
    }
    make_on(rt, Call::from(bytes), table, pattern, levels);
    true
}

fn main(rt: HostRuntime) {
    let mut stdin = rt.stdin();
    let mut pattern = [0u8; 512];
    let mut levels = [0i32; 1025];
    let mut table = [0u8; 1585];
    streams::read_full(&mut stdin, &mut pattern);
    fill(&mut levels);
    cases::replay_all(|| turn(&rt, &mut stdin, &mut table, &pattern, &levels));
    cases::put_each(&rt, &table);
    cases::put_end(&rt);
}
