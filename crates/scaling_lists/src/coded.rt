// A list coded in full.
ghost use Rattle.std.specs.Prelude.{◌≡◌, ◌+◌, ◌*◌, ◌≤◌, length, IfOk};
ghost use Rattle.scaling_lists_codes.specs.Syntax.{entries_from, coded_entries, coded_list};
ghost use Rattle.scaling_lists.specs.Work.{Positions, read_as, listed};

use refusal::Refusal;

// Kept: the entries go into a lent buffer and DC into the answer, here, in taken.rt and in list.rt: read_next holds the 64 entries, and one value of both would be taken apart there.
// The entries of a coded list, a delta for each position; the answer is the offset behind them.
fn entries_from(
    bytes: &[u8],
    scan: &[u8],
    first: u8,
    start: usize,
    entries: &mut [u8; 64],
) -> Result<usize, Refusal>
    requires { Positions scan.now 64 × (start ≤ 2305843009213693952) }
    ensures { (read_as entries.new result ≡ entries_from bytes.now scan.now first start entries.old) × IfOk result (λ behind. behind ≤ start + 65 * length scan.now) }
{
    let mut next = first;
    let mut at = start;
    for place in scan {
        let (value, behind) = scaling_lists_codes::delta_code(bytes, next, at)?;
        entries[*place as usize] = value;
        next = value;
        at = behind;
    }
    Ok(at)
}

// The same in the order of a size, as a list with a DC that is known; an entry that the size does not use is 0.
fn coded_entries(
    bytes: &[u8],
    size_id: usize,
    dc: u8,
    next: u8,
    at: usize,
    entries: &mut [u8; 64],
) -> Result<(u8, usize), Refusal>
    requires { at ≤ 2305843009213693952 }
    ensures { (listed entries.new result ≡ coded_entries bytes.now size_id dc next at) × IfOk result (λ r. r.1 ≤ at + 4160) }
{
    let scan = scaling_lists_codes::positions(size_id);
    *entries = [0; 64];
    let behind = entries_from(bytes, scan, next, at, entries)?;
    Ok((dc, behind))
}

// A list coded in full; from 16×16 on DC comes first, and the first entry is a delta from it. The answer is DC and the offset behind the list.
pub(crate) fn coded_list(
    bytes: &[u8],
    size_id: usize,
    at: usize,
    entries: &mut [u8; 64],
) -> Result<(u8, usize), Refusal>
    requires { at ≤ 1152921504606846976 }
    ensures { (listed entries.new result ≡ coded_list bytes.now size_id at) × IfOk result (λ r. r.1 ≤ at + 4225) }
{
    if size_id <= 1 {
        return coded_entries(bytes, size_id, 16, 8, at, entries);
    }
    let (dc, behind) = scaling_lists_codes::dc_code(bytes, at)?;
    coded_entries(bytes, size_id, dc, dc, behind, entries)
}
