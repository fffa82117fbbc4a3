// Writes sets of scaling lists. Standard input begins with the three default lists, 65, 64 and 64 bytes; then it holds cases: a byte that says which slice
// is lent too short or too long, two bytes of room for the output, low byte first, 20 lists of 64 bytes with a byte behind them, and 20 DC numbers with a byte
// behind them. A case is written as a line with its number, the answer's number and place, the bits written and the whole output buffer; or whether the buffer is
// as it was.
#![tactic(auto)]

ghost use Rattle.std.specs.Prelude.{◌≤◌};

use cases::{Defaults, kept, put, put_each, put_refused};
use std::io::Read;

// The largest room that is lent.
const LARGEST: usize = 3000;

// What is amiss with the slices that a case lends.
// Kept: beside that of the other program on scaling lists: variants and their numbers are of each file.
#[derive(Clone, Copy)]
enum Amiss {
    Nothing,
    ShortFour,
    LongFour,
    ShortIntra,
    ShortInter,
    ShortLists,
    ShortDcs,
    // no element behind the lists and the DC numbers
    NoneBehind,
}

impl From<u8> for Amiss {
    fn from(byte: u8) -> Amiss {
        match byte {
            1 => Amiss::ShortFour,
            2 => Amiss::LongFour,
            3 => Amiss::ShortIntra,
            4 => Amiss::ShortInter,
            5 => Amiss::ShortLists,
            6 => Amiss::ShortDcs,
            7 => Amiss::NoneBehind,
            _ => Amiss::Nothing,
        }
    }
}

impl Amiss {
    fn four_length(self) -> usize
        ensures { result ≤ 65 }
    {
        match self {
            Amiss::ShortFour => 63,
            Amiss::LongFour => 65,
            _ => 64,
        }
    }

    fn intra_length(self) -> usize
        ensures { result ≤ 64 }
    {
        match self {
            Amiss::ShortIntra => 63,
            _ => 64,
        }
    }

    fn inter_length(self) -> usize
        ensures { result ≤ 64 }
    {
        match self {
            Amiss::ShortInter => 63,
            _ => 64,
        }
    }

    fn lists_length(self) -> usize
        ensures { result ≤ 1281 }
    {
        match self {
            Amiss::ShortLists => 1279,
            Amiss::NoneBehind => 1280,
            _ => 1281,
        }
    }

    fn dcs_length(self) -> usize
        ensures { result ≤ 21 }
    {
        match self {
            Amiss::ShortDcs => 19,
            Amiss::NoneBehind => 20,
            _ => 21,
        }
    }
}

// One call on a buffer that holds the mark.
fn write_case(
    rt: &impl Print,
    amiss: Amiss,
    room: usize,
    lists: &[u8; 1281],
    dcs: &[u8; 21],
    defaults: Defaults,
) {
    if LARGEST < room {
        return;
    }
    let mut out = [7u8; LARGEST];
    let out = &mut out[..room];
    let answer = scaling_lists_writer::write_scaling_lists(
        &lists[..amiss.lists_length()],
        &dcs[..amiss.dcs_length()],
        &defaults.four[..amiss.four_length()],
        &defaults.intra[..amiss.intra_length()],
        &defaults.inter[..amiss.inter_length()],
        out,
    );
    match answer {
        Ok(bits) => {
            streams::write_all(rt, b" 0 0");
            put(rt, bits);
            put_each(rt, out);
            cases::put_end(rt);
        }
        Err(why) => put_refused(rt, why, kept(out)),
    }
}

// One case; answers whether there was one.
fn replay(rt: &impl Print, stdin: &mut impl Read, number: u64, defaults: Defaults) -> bool {
    let mut head = [0u8; 3];
    let mut lists = [0u8; 1281];
    let mut dcs = [0u8; 21];
    if streams::read_full(stdin, &mut head) < 3 {
        return false;
    }
    let [amiss, low, high] = head;
    streams::read_full(stdin, &mut lists);
    streams::read_full(stdin, &mut dcs);
    let room = u16::from_le_bytes([low, high]) as usize;
    streams::write_all(rt, b"case");
    put(rt, number);
    streams::write_all(rt, b":");
    write_case(rt, Amiss::from(amiss), room, &lists, &dcs, defaults);
    true
}

fn main(rt: HostRuntime) {
    let mut stdin = rt.stdin();
    let defaults = Defaults::read(&mut stdin);
    // Kept: beside `cases::replay_all`, which hands on no number: here the `for` counts the cases.
    for number in 0..u64::MAX {
        if !replay(&rt, &mut stdin, number, defaults) {
            return;
        }
    }
}
