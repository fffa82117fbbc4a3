// Places of a table of lists: where one starts, whether a number is held, which is the lowest free one, and what stands there. Internal: the
// crates above call these and meet what they require.
#![tactic(auto)]

ghost use Rattle.std.specs.Prelude.{◌≡◌, ◌∷◌, ◌+◌, ◌*◌, ◌≤◌, ◌<◌, length, get_or};
ghost use Rattle.std.proofs.Math.Seq.{paste};
ghost use Rattle.integers.specs.Lists.{overwrite};
ghost use Rattle.h265.specs.ScalingFactor.ScalingList.{listed};
ghost use Rattle.refusal.specs.Outcome.{answer};
ghost use Rattle.scaling_values.specs.Given.{list_of};
ghost use Rattle.list_places.specs.Stream.{missing, number_answer, LowestFree};
ghost use Rattle.list_places.specs.Table.{entries_at, stream_of, short, TableChecked};

use refusal::Refusal;
use scaling_values::ScalingList;

// Kept: table, stream and number stand apart here and in the crates above, as C gives them. Some calls change the table and some lend it, so that a struct
// with it would stand twice; that it has 24 places, and that the number is one, is tested once for each call.

// A table has 12 numbers of each of two streams. A number's place has a flag, DC and the 64 entries of a list.
const NUMBERS: usize = 12;

const ENTRIES: usize = 64;

const PLACE: usize = 66;

const TABLE: usize = 1584;

// The first byte of a number's place.
pub fn start_of(stream: usize, number: usize) -> usize
    requires { (stream < 2) × (number < 12) }
    ensures { result ≡ 66 * (12 * stream + number) }
{
    PLACE * (NUMBERS * stream + number)
}

// Row 7 stops a call, of a table without 24 places.
#[tactic(auto, unfolding(crate::specs::Table::short))]
pub fn check_table(table: &[u8]) -> Result<(), Refusal>
    ensures { TableChecked table.now result }
{
    refusal::check(table.len() < TABLE, Refusal::OutputTooShort)
}

// Row 18 of a call with a number.
#[tactic(auto, using(crate::proofs::TableLaws::missing_stream, crate::proofs::TableLaws::missing_past, crate::proofs::TableLaws::missing_byte))]
pub fn is_missing(table: &[u8], stream: usize, number: usize) -> bool
    requires { 1584 ≤ length table.now }
    ensures { result ≡ missing stream (stream_of table.now stream) number }
{
    1 < stream || NUMBERS <= number || table[start_of(stream, number)] == 0
}

// Rows 7 and 18 of a call that reads a number.
#[tactic(auto, unfolding(crate::specs::Stream::number_answer, crate::specs::Stream::number_ladder))]
pub fn number_refused(table: &[u8], stream: usize, number: usize) -> Result<(), Refusal>
    ensures { answer result ≡ number_answer (short table.now) stream (stream_of table.now stream) number }
{
    check_table(table)?;
    refusal::check(is_missing(table, stream, number), Refusal::ListMissing)
}

// The lowest free number of a stream, if it has one.
pub fn lowest_free(table: &[u8], stream: usize) -> Option<usize>
    requires { (1584 ≤ length table.now) × (stream < 2) }
    ensures { LowestFree (stream_of table.now stream) result }
{
    for i in 0..NUMBERS {
        if table[start_of(stream, i)] == 0 {
            return Some(i);
        }
    }
    None
}

// Kept: list and DC stand apart, since a list to store is never none, as a `ScalingList` may be.
// A list and its DC, put at a place that starts at `at`.
pub fn put_place(table: &mut [u8], at: usize, list: &[u8], dc: u8)
    requires { (at + 66 ≤ length table.old) × (length list.now ≡ 64) }
    ensures { table.new ≡ paste table.old at (1 ∷ dc ∷ list.now) 66 }
{
    table[at] = 1;
    table[at + 1] = dc;
    table[at + 2..at + PLACE].copy_from_slice(list);
}

// The entries of a place that starts at `at`, at the start of a lent list.
pub fn entries_out(table: &[u8], at: usize, out: &mut [u8])
    requires { (at + 66 ≤ length table.now) × (64 ≤ length out.old) }
    ensures { out.new ≡ overwrite 64 (λ j. get_or table.now (at + 2 + j) 0) out.old }
{
    out[..ENTRIES].copy_from_slice(&table[at + 2..at + PLACE]);
}

// The list and the DC of a number, where they stand.
pub fn scaling_list<'a>(table: &'a [u8], stream: usize, number: usize) -> ScalingList<'a>
    requires { (1584 ≤ length table.now) × (stream < 2) × (number < 12) }
    ensures { list_of result ≡ listed (entries_at table.now (12 * stream + number)) (get_or table.now (66 * (12 * stream + number) + 1) 0) }
{
    let at = start_of(stream, number);
    ScalingList::Listed(&table[at + 2..at + PLACE], table[at + 1])
}
