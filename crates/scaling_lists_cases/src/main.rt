// Replays streams of scaling list data. Each file that the arguments name begins with the three default lists, 65, 64 and 64 bytes; then it holds cases: two
// bytes of length, low byte first, a byte that says which slice is lent too short or too long, and the bytes of the stream. A case is written as a line with its
// number, the answer's number and place and the bits read; then the lists that were read, a line for each with DC first, or whether the lent buffers are
// as they were.
#![tactic(auto)]

ghost use Rattle.std.specs.Prelude.{◌≤◌};

use cases::{Defaults, kept, put, put_each, put_refused};
use std::io::Read;
use std::rt::Files;
use std::{env, fs, io};

// The longest stream that is replayed.
const LONGEST: usize = 8192;

// What is amiss with the slices that a case lends.
// Kept: beside that of the other program on scaling lists: variants and their numbers are of each file.
#[derive(Clone, Copy)]
enum Amiss {
    Nothing,
    ShortFour,
    LongFour,
    ShortInter,
    ShortLists,
    ShortDcs,
    ShortFourAndLists,
}

impl From<u8> for Amiss {
    fn from(byte: u8) -> Amiss {
        match byte {
            1 => Amiss::ShortFour,
            2 => Amiss::LongFour,
            3 => Amiss::ShortInter,
            4 => Amiss::ShortLists,
            5 => Amiss::ShortDcs,
            6 => Amiss::ShortFourAndLists,
            _ => Amiss::Nothing,
        }
    }
}

impl Amiss {
    fn four_length(self) -> usize
        ensures { result ≤ 65 }
    {
        match self {
            Amiss::ShortFour | Amiss::ShortFourAndLists => 63,
            Amiss::LongFour => 65,
            _ => 64,
        }
    }

    fn inter_length(self) -> usize
        ensures { result ≤ 64 }
    {
        match self {
            Amiss::ShortInter => 63,
            _ => 64,
        }
    }

    // Where nothing is amiss the buffers have an element more than they should.
    fn lists_length(self) -> usize
        ensures { result ≤ 1281 }
    {
        match self {
            Amiss::ShortLists | Amiss::ShortFourAndLists => 1279,
            _ => 1281,
        }
    }

    fn dcs_length(self) -> usize
        ensures { result ≤ 21 }
    {
        match self {
            Amiss::ShortDcs => 19,
            _ => 21,
        }
    }
}

// The lists that were read, and what stands behind them.
fn put_lists(rt: &impl Print, lists: &[u8], dcs: &[u8]) {
    for (list, dc) in lists.chunks_exact(64).zip(dcs) {
        put(rt, *dc);
        put_each(rt, list);
        cases::put_end(rt);
    }
    if let Some(behind) = lists.get(1280..) {
        put_each(rt, behind);
    }
    if let Some(behind) = dcs.get(20..) {
        put_each(rt, behind);
    }
    cases::put_end(rt);
}

// One call on buffers that hold the mark.
fn read_case(rt: &impl Print, amiss: Amiss, defaults: Defaults, stream: &[u8]) {
    let mut lists = [7u8; 1281];
    let mut dcs = [7u8; 21];
    let four = &defaults.four[..amiss.four_length()];
    let inter = &defaults.inter[..amiss.inter_length()];
    let lists = &mut lists[..amiss.lists_length()];
    let dcs = &mut dcs[..amiss.dcs_length()];
    match scaling_lists::read_scaling_lists(stream, four, &defaults.intra, inter, lists, dcs) {
        Ok(bits) => {
            streams::write_all(rt, b" 0 0");
            put(rt, bits);
            cases::put_end(rt);
            put_lists(rt, lists, dcs);
        }
        Err(why) => {
            let same = kept(lists) && kept(dcs);
            put_refused(rt, why, same);
        }
    }
}

// One case; answers whether the file had one.
fn replay(rt: &impl Print, file: &mut impl Read, number: u64, defaults: Defaults) -> bool {
    let mut head = [0u8; 3];
    if streams::read_full(file, &mut head) < 3 {
        return false;
    }
    let [low, high, amiss] = head;
    let n = u16::from_le_bytes([low, high]) as usize;
    if LONGEST < n {
        return false;
    }
    let mut stream = [0u8; LONGEST];
    let stream = &mut stream[..n];
    let there = streams::read_full(file, stream);
    streams::write_all(rt, b"case");
    put(rt, number);
    streams::write_all(rt, b":");
    read_case(rt, Amiss::from(amiss), defaults, &stream[..there]);
    true
}

// All cases of a file.
// Kept: beside `cases::replay_all`, which hands on no number: here the `for` counts the cases.
fn replay_all(rt: &impl Print, file: &mut impl Read) {
    let defaults = Defaults::read(file);
    for number in 0..u64::MAX {
        if !replay(rt, file, number, defaults) {
            return;
        }
    }
}

// The file that an argument names.
// Kept: `feed_cases` has this too; one for both would take the replay as a closure, for one `open`, a title and an error line.
fn replay_file<R: Files + Print + Eprint>(rt: &R, path: &str) {
    match fs::open(rt, path) {
        Ok(mut file) => {
            streams::write_all(rt, path.as_bytes());
            cases::put_end(rt);
            replay_all(rt, &mut file);
        }
        Err(error) => {
            let _ = eprintln!(rt; "{path}: {error}");
        }
    }
}

fn main(rt: HostRuntime) -> io::Result<()> {
    for path in env::args(&rt)?.skip(1) {
        replay_file(&rt, &path);
    }
    Ok(())
}
