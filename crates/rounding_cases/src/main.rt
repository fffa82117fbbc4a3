// Replays the rounding bound from standard input. A case is a text, which is written as it is; the kind, 0 or 1 for DCT or DST, the size, eight bytes, depth and flag. The
// text goes on with the answer and the bound. tests/rounding_cases.py writes cases and text.
#![tactic(auto)]

use std::io::Read;

// One case; answers whether there was one.
fn replay(rt: &impl Print, stdin: &mut impl Read) -> bool {
    if !cases::copy_text(rt, stdin) {
        return false;
    }
    let kind = cases::next_kind(stdin);
    let n = cases::next::<usize, _>(stdin);
    let precision = cases::next_precision(stdin);
    cases::put_value(rt, rounding::rounding_bound(kind, n, precision));
    cases::put_end(rt);
    true
}

fn main(rt: HostRuntime) {
    let mut stdin = rt.stdin();
    cases::replay_all(|| replay(&rt, &mut stdin));
}
