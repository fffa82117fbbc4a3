// The codes of a list in full, put into a buffer of bits.
ghost use Rattle.std.specs.Prelude.{◌≡◌, ◌+◌, ◌*◌, ◌≤◌, length};
ghost use Rattle.text.specs.Text.{WroteUpTo};
ghost use Rattle.bits_written.specs.Codes.{code_number, signed_bits};
ghost use Rattle.scaling_lists_codes.specs.Syntax.{size_id};
ghost use Rattle.scaling_lists.specs.Work.{Positions};
ghost use Rattle.scaling_lists_written.specs.Written.{difference, delta_from, delta_bits, full_bits};
ghost use Rattle.scaling_lists_put.specs.Lists.{factor_list};

use crate::same;
use crate::set::HeldList;

// Kept: below and above 0 a difference has another code, so that `abs_diff` would leave both tests standing.
// The number of ue(v) that stands for a - b in se(v).
fn code_number(a: u64, b: u64) -> u64
    requires { (a ≤ 255) × (b ≤ 255) }
    ensures { (result ≡ code_number (difference a b)) × (result ≤ 510) }
{
    if a < b {
        return 2 * (b - a);
    }
    if b < a { 2 * (a - b) - 1 } else { 0 }
}

// a - b as se(v).
fn put_difference(a: u64, b: u64, bits: &mut [u8], at: usize) -> usize
    requires { (a ≤ 255) × (b ≤ 255) × (at + 17 ≤ length bits.old) }
    ensures { WroteUpTo bits.old at (signed_bits (difference a b)) bits.new result (at + 17) }
{
    bits_written::put_code(code_number(a, b), bits, at)
}

// scaling_list_delta_coef of an entry after `next`.
fn put_delta(next: u8, entry: u8, bits: &mut [u8], at: usize) -> usize
    requires { at + 17 ≤ length bits.old }
    ensures { WroteUpTo bits.old at (signed_bits (delta_from next entry)) bits.new result (at + 17) }
{
    put_difference((entry as u64 + 384 - next as u64) % 256, 128, bits, at)
}

// The entries of a list at the positions of a scan.
fn put_entries(entries: &[u8], scan: &[u8], first: u8, bits: &mut [u8], start: usize) -> usize
    requires { Positions scan.now (length entries.now) × (start + 17 * length scan.now ≤ length bits.old) }
    ensures { WroteUpTo bits.old start (delta_bits scan.now first entries.now) bits.new result (start + 17 * length scan.now) }
{
    let mut next = first;
    let mut at = start;
    for place in scan {
        let entry = entries[*place as usize];
        at = put_delta(next, entry, bits, at);
        next = entry;
    }
    at
}

// A list in full, to the size of list j; from 16×16 on DC comes first, and the first entry is a delta from it.
pub(crate) fn put_full(list: HeldList, j: usize, bits: &mut [u8], at: usize) -> usize
    requires { at + 1105 ≤ length bits.old }
    ensures { WroteUpTo bits.old at (full_bits (size_id j) (factor_list list.entry)) bits.new result (at + 1105) }
{
    let scan = scaling_lists_codes::positions(j / 6);
    if same::has_dc(j) {
        let behind = put_difference(list.dc as u64, 8, bits, at);
        return put_entries(list.entries, scan, list.dc, bits, behind);
    }
    put_entries(list.entries, scan, 8, bits, at)
}
