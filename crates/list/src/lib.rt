// The entry points of the list: set-up, call, move and listing, each with its refusals in their order.
#![tactic(auto)]

ghost use Rattle.std.specs.Prelude.{◌≡◌, length};
ghost use Rattle.refusal.specs.Answer.{left, accepted, passed, answering, verdict_is};
ghost use Rattle.calls.specs.Calls.{call_named};
ghost use Rattle.calls.specs.Words.{reply_is};
ghost use Rattle.list_rows.specs.Table.{table_of, SameColumns};
ghost use Rattle.list_unchecked.specs.Unchecked.{machine, columns_of, machine_of};
ghost use Rattle.list.specs.Engine.{
  bad_table,
  form_tests,
  set_up_tests,
  set_up_of,
  no_row,
  call_asks,
  call_of,
  move_asks,
  move_of,
  live_keys,
  list_asks,
  list_of,
};
ghost use Rattle.list.specs.Answers.{asked_is, listed_is};

use calls::{Call, Said};
use list_chain::{chain_rises, live_count, write_live};
use list_form::{columns_agree, good_form};
use list_fresh::fresh_table;
use list_party::State;
use list_rows::{Columns, ColumnsMut};
use list_unchecked::Engine;
use refusal::Refusal;

// Whether the columns differ in length, or are too short or too long.
fn bad_columns(columns: &Columns<'_>) -> bool
    ensures { result ≡ bad_table (table_of columns.now) }
{
    let rows = columns.kind.len();
    let agree = columns_agree(
        rows,
        columns.key.len(),
        columns.next.len(),
        columns.back.len(),
    );
    !(agree & ((4 <= rows) & (rows <= 4096)))
}

// 1, 2.
fn set_up_asks(columns: &Columns<'_>, parties: u32) -> Result<(), Refusal>
    ensures { verdict_is result ≡ set_up_tests (table_of columns.now) parties }
{
    if bad_columns(columns) {
        return Err(Refusal::BadColumns);
    }
    if (parties == 0) | (16 < parties) {
        return Err(Refusal::BadParties);
    }
    Ok(())
}

// Lays an empty list for so many parties into the columns, whatever stood there. Refusals 1, 2; refused, the columns
// and the state are as they were.
#[tactic(auto, unfolding(crate::specs::Engine::set_up_of))]
pub fn set_up(engine: &mut Engine<'_>, parties: u32) -> Result<(), Refusal>
    ensures leaves { left (machine_of engine.new) (verdict_is result) ≡ set_up_of (machine_of engine.old) parties }
    ensures lent { SameColumns (columns_of engine.old) (columns_of engine.new) }
{
    set_up_asks(&engine.view(), parties)?;
    let mut columns = ColumnsMut {
        kind: &mut *engine.kind,
        key: &mut *engine.key,
        next: &mut *engine.next,
        back: &mut *engine.back,
    };
    fresh_table(&mut columns);
    // There are 16 parties at most.
    engine.state = State::resting(parties as u8, 4);
    Ok(())
}

// Whether an ADD or a REMOVE has no row to take.
fn no_row(unpublished: bool, taken: u16, rows: usize, call: Call) -> bool
    ensures { result ≡ no_row unpublished taken rows call }
{
    !call.is_contains() & (!unpublished & (usize::from(taken) == rows))
}

// 4, 5, 6, 7: what a call asks of a state of good form, with columns of so many rows; accepted, the call of the code.
// Does not test for 1 and 3.
pub fn call_asks(state: &State, rows: usize, number: u32, code: u32) -> Result<Call, Refusal>
    ensures { asked_is result ≡ answering (call_asks state.now rows number code) (accepted (call_named code)) }
{
    if u32::from(state.count) <= number {
        return Err(Refusal::NoSuchParty);
    }
    let party = state.party_at(number);
    if !party.place.is_idle() {
        return Err(Refusal::PartyBusy);
    }
    let call = Call::try_from(code)?;
    if no_row(party.unpublished, state.taken, rows, call) {
        return Err(Refusal::TableFull);
    }
    Ok(call)
}

// 4, 8, 9: what a move asks of a state of good form. Does not test for 1 and 3.
pub fn move_asks(state: &State, number: u32) -> Result<(), Refusal>
    ensures { verdict_is result ≡ move_asks state.now number }
{
    if u32::from(state.count) <= number {
        return Err(Refusal::NoSuchParty);
    }
    if state.party_at(number).place.is_idle() {
        return Err(Refusal::PartyIdle);
    }
    if state.tallies.moves == 16777216 {
        return Err(Refusal::MovesSpent);
    }
    Ok(())
}

// 1, 3: what every entry point but a set-up asks first.
fn form_asks(columns: &Columns<'_>, state: &State) -> Result<(), Refusal>
    ensures { verdict_is result ≡ form_tests (machine (table_of columns.now) state.now) passed }
{
    if bad_columns(columns) {
        return Err(Refusal::BadColumns);
    }
    if !good_form(columns, state) {
        return Err(Refusal::BadForm);
    }
    Ok(())
}

// Starts a call of a party. Refusals 1, 3, 4, 5, 6, 7; refused, all is as it came. The code is any number, and to
// refuse a wrong one (6) is asked of it.
#[tactic(auto, unfolding(crate::specs::Engine::call_of))]
pub fn call(engine: &mut Engine<'_>, number: u32, code: u32, wanted: u32) -> Result<(), Refusal>
    ensures leaves { left (machine_of engine.new) (verdict_is result)
        ≡ call_of (machine_of engine.old) number code wanted }
    ensures lent { SameColumns (columns_of engine.old) (columns_of engine.new) }
{
    form_asks(&engine.view(), &engine.state)?;
    let call = call_asks(&engine.state, engine.kind.len(), number, code)?;
    engine.call_unchecked(number, call, wanted);
    Ok(())
}

// Makes one move of a party. Refusals 1, 3, 4, 8, 9; refused, all is as it came.
#[tactic(auto, unfolding(crate::specs::Engine::move_of))]
pub fn step(engine: &mut Engine<'_>, number: u32) -> Result<Said, Refusal>
    ensures leaves { left (machine_of engine.new) (reply_is result) ≡ move_of (machine_of engine.old) number }
    ensures lent { SameColumns (columns_of engine.old) (columns_of engine.new) }
{
    form_asks(&engine.view(), &engine.state)?;
    move_asks(&engine.state, number)?;
    Ok(engine.step_unchecked(number))
}

// 3, 10: what a listing asks of a state of good form; accepted, how many keys it lists.
fn list_asks(columns: &Columns<'_>, state: &State, places: usize) -> Result<usize, Refusal>
    ensures { listed_is result
        ≡ answering (list_asks (machine (table_of columns.now) state.now) places)
        (accepted (length (live_keys (machine (table_of columns.now) state.now)))) }
{
    if !chain_rises(columns, state.taken) {
        return Err(Refusal::BadForm);
    }
    let count = live_count(columns, state.taken);
    if places < count {
        return Err(Refusal::NoRoom);
    }
    Ok(count)
}

// Writes the live keys, in rising order, into the first of the places. Refusals 1, 3, 10; refused, no place is written.
#[tactic(auto, unfolding(crate::specs::Engine::list_of))]
pub fn listing(columns: &Columns<'_>, state: &State, places: &mut [u32]) -> Result<usize, Refusal>
    ensures { left places.new (listed_is result)
        ≡ list_of (machine (table_of columns.now) state.now) places.old }
{
    form_asks(columns, state)?;
    let count = list_asks(columns, state, places.len())?;
    write_live(columns, state.taken, places);
    Ok(count)
}
