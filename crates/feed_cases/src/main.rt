// Replays feeds. Each file that the arguments name holds cases: four bytes of length, low byte first, then the bytes of a feed. A
// case is written as a line with its number in the file and the text of its feed, by `feed::run`.
#![tactic(auto)]

use std::io::Read;
use std::rt::Files;
use std::{env, fs, io};

// The longest feed that is replayed.
const LONGEST: usize = 8192;

fn title(rt: &impl Print, number: u64) {
    streams::write_all(rt, b"case ");
    streams::print(rt, number);
    streams::write_all(rt, b"\n");
}

// One case; answers whether the file had one.
fn replay(rt: &impl Print, file: &mut impl Read, number: u64) -> bool {
    let mut head = [0u8; 4];
    let mut feed = [0u8; LONGEST];
    let mut out = [0u8; 32808];
    if streams::read_full(file, &mut head) < 4 {
        return false;
    }
    // no case is longer than 64 KiB: the upper two bytes say nothing
    let [low, high, _, _] = head;
    let n = u16::from_le_bytes([low, high]) as usize;
    if LONGEST < n {
        return false;
    }
    let feed = &mut feed[..n];
    let there = streams::read_full(file, feed);
    title(rt, number);
    match feed::run(&feed[..there], &mut out) {
        Some(end) => streams::write_all(rt, &out[..end]),
        None => streams::write_all(rt, b"no room\n"),
    }
}

// All cases of a file.
// Kept: beside `cases::replay_all`, which hands on no number: here the `for` counts the cases.
fn replay_all(rt: &impl Print, file: &mut impl Read) {
    for number in 0..u64::MAX {
        if !replay(rt, file, number) {
            return;
        }
    }
}

// The file that an argument names.
// Kept: `scaling_lists_cases` has this too; one for both would take the replay as a closure, for one `open`, a title and an error line.
fn replay_file<R: Files + Print + Eprint>(rt: &R, path: &str) {
    match fs::open(rt, path) {
        Ok(mut file) => {
            streams::write_all(rt, path.as_bytes());
            streams::write_all(rt, b"\n");
            replay_all(rt, &mut file);
        }
        Err(error) => {
            let _ = eprintln!(rt; "{path}: {error}");
        }
    }
}

fn main(rt: HostRuntime) -> io::Result<()> {
    for path in env::args(&rt)?.skip(1) {
        replay_file(&rt, &path);
    }
    Ok(())
}
