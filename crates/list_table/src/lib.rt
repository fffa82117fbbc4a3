// Two streams of scaling lists (change request R-10: two decks) in one lent table of 24 places: a list stored, dropped and looked up under its number.
#![tactic(auto)]

ghost use Rattle.std.specs.Prelude.{◌≡◌};
ghost use Rattle.list_places.specs.Table.{stream_of, short};
ghost use Rattle.list_table.specs.Calls.{find_answer};
ghost use Rattle.list_table.specs.Answers.{Stores, Drops, Finds};

use refusal::Refusal;

// Kept: list and DC stand apart, since a list to store is never none, as a `ScalingList` may be.
// Stores a list and its DC under the lowest free number of a stream.
pub fn store_list(table: &mut [u8], stream: usize, list: &[u8], dc: u8) -> Result<usize, Refusal>
    ensures { Stores result table.new table.old stream list.now dc }
{
    refusal::check_list(list.len())?;
    list_places::check_table(table)?;
    refusal::check(1 < stream, Refusal::ListMissing)?;
    let Some(number) = list_places::lowest_free(table, stream) else {
        return Err(Refusal::StreamFull);
    };
    list_places::put_place(table, list_places::start_of(stream, number), list, dc);
    Ok(number)
}

// Frees a number of a stream for use again.
#[tactic(auto, using(crate::proofs::AnswerLaws::drop_refused))]
pub fn drop_list(table: &mut [u8], stream: usize, number: usize) -> Result<(), Refusal>
    ensures { Drops result table.new table.old stream number }
{
    list_places::number_refused(table, stream, number)?;
    table[list_places::start_of(stream, number)] = 0;
    Ok(())
}

// The list and the DC of a number.
#[tactic(auto, using(crate::proofs::AnswerLaws::find_narrow, crate::proofs::AnswerLaws::find_refused))]
pub fn list_at(
    table: &[u8],
    stream: usize,
    number: usize,
    list_out: &mut [u8],
) -> Result<u8, Refusal>
    ensures { Finds result list_out.new (find_answer (short table.now) stream (stream_of table.now stream) number list_out.old) }
{
    refusal::check(list_out.len() < 64, Refusal::OutputTooShort)?;
    list_places::number_refused(table, stream, number)?;
    let at = list_places::start_of(stream, number);
    list_places::entries_out(table, at, list_out);
    Ok(table[at + 1])
}
