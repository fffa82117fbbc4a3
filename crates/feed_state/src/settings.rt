// The records that set what the blocks after them go by: parameters, and a list or none. Each closes the open block.
ghost use Rattle.std.specs.Prelude.{Ok, ◌≤◌, length};
ghost use Rattle.feed_rules.specs.Record.{FeedState, parameters_effect, list_effect, no_list_effect};
ghost use Rattle.feed_state.specs.Buffers.{Buffered, in_buffers};
ghost use Rattle.feed_state.specs.Taken.{Silent};

use crate::states::behind;
use crate::{State, Taken};
use feed_format::{Kind, Parameters, flag_of, known_mode, list_of};
use refusal::{Precision, Refusal};

pub fn take_parameters(s: State, body: &[u8], at: usize) -> Result<Taken, Refusal>
    requires { 4 ≤ length body.now }
    ensures { Silent s result at (λ (f : FeedState Buffered). parameters_effect in_buffers f body.now) }
{
    let bit_depth = body[0];
    refusal::check_depth(bit_depth)?;
    let extended = flag_of(body[1]).ok_or(Refusal::ParameterInvalid)?;
    let mode = known_mode(body[3]).ok_or(Refusal::ParameterInvalid)?;
    let p = Parameters {
        precision: Precision {
            bit_depth,
            extended,
        },
        qp_prime: body[2],
        mode,
    };
    let state = State {
        given: Some(p),
        held: None,
        offset: behind(s.offset, Kind::Parameters.body_length()),
        ..s
    };
    Ok(Taken { state, end: at })
}

pub fn take_list(s: State, body: &[u8], at: usize) -> Taken
    requires { 65 ≤ length body.now }
    ensures { Silent s (Ok result) at (λ (f : FeedState Buffered). list_effect in_buffers f body.now) }
{
    let state = State {
        list: Some(list_of(body)),
        held: None,
        offset: behind(s.offset, Kind::List.body_length()),
        ..s
    };
    Taken { state, end: at }
}

pub fn take_no_list(s: State, at: usize) -> Taken
    ensures { Silent s (Ok result) at (no_list_effect in_buffers) }
{
    let state = State {
        list: None,
        held: None,
        offset: behind(s.offset, Kind::NoList.body_length()),
        ..s
    };
    Taken { state, end: at }
}
