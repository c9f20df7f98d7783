// The probe: one checked set-up, call, move or listing on any state, bytes in and bytes out.
#![tactic(auto)]

ghost use Rattle.std.specs.Prelude.{◌≡◌, true};
ghost use Rattle.refusal.specs.Answer.{answer_is, left, verdict_is};
ghost use Rattle.list_rows.specs.Table.{table_of, table_held, SameColumns};
ghost use Rattle.page.specs.Page.{Puts, PutsOn};
ghost use Rattle.list_unchecked.specs.Unchecked.{machine, columns_of, machine_of};
ghost use Rattle.list.specs.Answers.{listed_is};
ghost use Rattle.calls.specs.Words.{word_of, reply_is};
ghost use Rattle.probe_layout.specs.Layout.{places_in, rooms_fit, fits, table_into, state_in};
ghost use Rattle.probe_answer.specs.Probe.{
  unwritten,
  word_number,
  refusal_in,
  done_shown,
  move_shown,
  list_shown,
  seen_by,
  seen_is,
  FoundSo,
  seen_of,
  seen_bytes,
  probe_of,
};

use calls::Said;
use list::{call, listing, set_up, step};
use list_party::State;
use list_rows::{Columns, ColumnsMut};
use list_unchecked::Engine;
use page::Page;
use probe_layout::{
    Question, fits, put_all, put_machine, put_two, question_in, read_table, state_in,
};
use refusal::Refusal;

// What a question has found: a refusal's number or 0, the answer, how many keys were listed. They are numbers because
// they are the first bytes of the probe's output.
#[derive(Clone, Copy)]
struct Found {
    number: u8,
    answer: u8,
    listed: usize,
}

// The number of a refusal; of an accepted answer, 0.
fn refusal_in<T: Copy>(answer: Result<T, Refusal>) -> u8
    ensures { result ≡ refusal_in (answer_is (λ value. value) answer) }
{
    match answer {
        Ok(_) => 0,
        Err(why) => why.number(),
    }
}

// What is said by a move: 0 nothing, 1 yes, 2 no.
fn word_number(said: Said) -> u8
    ensures { result ≡ word_number (word_of said) }
{
    match said {
        Said::Nothing => 0,
        Said::Yes => 1,
        Said::No => 2,
    }
}

// What a set-up or a call comes to.
#[tactic(auto, unfolding(crate::specs::Probe::done_shown))]
fn done_found(done: Result<(), Refusal>) -> Found
    ensures { FoundSo result (λ m places. done_shown places (left m (verdict_is done))) }
{
    Found {
        number: refusal_in(done),
        answer: 0,
        listed: 0,
    }
}

// What a move comes to.
#[tactic(auto, unfolding(crate::specs::Probe::move_shown))]
fn move_found(done: Result<Said, Refusal>) -> Found
    ensures { FoundSo result (λ m places. move_shown places (left m (reply_is done))) }
{
    Found {
        number: refusal_in(done),
        answer: done.map_or(0, word_number),
        listed: 0,
    }
}

// What a listing comes to.
#[tactic(auto, unfolding(crate::specs::Probe::list_shown))]
fn listing_found(done: Result<usize, Refusal>) -> Found
    ensures { FoundSo result (λ m places. list_shown m (left places (listed_is done))) }
{
    Found {
        number: refusal_in(done),
        answer: 0,
        listed: done.unwrap_or(0),
    }
}

// Puts the question to the entry point that it names.
fn ask(asked: Question, engine: &mut Engine<'_>, places: &mut [u32]) -> Found
    ensures answers { seen_is (machine_of engine.new) places.new result
        ≡ seen_by asked.what (machine_of engine.old) asked.party asked.code asked.key places.old }
    ensures lent { SameColumns (columns_of engine.old) (columns_of engine.new) }
{
    let party = asked.party;
    match asked.what {
        0 => done_found(set_up(engine, party)),
        1 => done_found(call(engine, party, asked.code, asked.key)),
        2 => move_found(step(engine, party)),
        _ => listing_found(listing(&engine.view(), &engine.state, places)),
    }
}

// All that is seen: number, answer, how many keys were listed, the places, the state.
#[tactic(auto, using(page::proofs::Laws::put_put), unfolding(crate::specs::Probe::seen_bytes))]
fn put_seen(page: &mut Page<'_>, found: Found, places: &[u32], columns: &Columns<'_>, state: &State)
    ensures { PutsOn page (seen_bytes (seen_is (machine (table_of columns.now) state.now) places.now found)) }
{
    page.put_byte(found.number);
    page.put_byte(found.answer);
    put_two(page, found.listed);
    put_all(page, places);
    put_machine(page, columns, state);
}

// Reads the table and the state into the rooms.
fn read_in(bytes: &[u8], engine: &mut Engine<'_>)
    ensures read { machine_of engine.new
        ≡ machine (table_into bytes.now (machine_of engine.old).table) (state_in bytes.now) }
    ensures lent { SameColumns (columns_of engine.old) (columns_of engine.new) }
{
    let mut columns = ColumnsMut {
        kind: &mut *engine.kind,
        key: &mut *engine.key,
        next: &mut *engine.next,
        back: &mut *engine.back,
    };
    read_table(bytes, &mut columns);
    engine.state = state_in(bytes);
}

// Reads the state into the rooms, asks, and writes all that is seen.
fn ask_in(bytes: &[u8], engine: &mut Engine<'_>, places: &mut [u32], page: &mut Page<'_>)
    requires { (rooms_fit bytes.now (table_held (columns_of engine.old)) ≡ true)
        × (places.old ≡ unwritten (places_in bytes.now)) }
    ensures { PutsOn page (seen_bytes (seen_of bytes.now)) }
{
    read_in(bytes, engine);
    let found = ask(question_in(bytes), engine, places);
    put_seen(page, found, places, &engine.view(), &engine.state);
}

// Makes room for what fits the layout, and asks. The memory is on this function's stack, since nothing is on a heap.
fn ask_new(bytes: &[u8], page: &mut Page<'_>)
    requires { fits bytes.now ≡ true }
    ensures { PutsOn page (seen_bytes (seen_of bytes.now)) }
{
    let mut kind = [0u8; 4200];
    let mut key = [0u32; 4200];
    let mut next = [0u16; 4200];
    let mut back = [0u16; 4200];
    let mut places = [4008636142u32; 4200];
    let asked = question_in(bytes);
    let mut engine = Engine {
        kind: &mut kind[..usize::from(asked.kinds)],
        key: &mut key[..usize::from(asked.keys)],
        next: &mut next[..usize::from(asked.nexts)],
        back: &mut back[..usize::from(asked.backs)],
        state: State::resting(0, 0),
    };
    ask_in(
        bytes,
        &mut engine,
        &mut places[..usize::from(asked.places)],
        page,
    );
}

// Leaves all that the one question of the bytes comes to at the start of the buffer, as far as it has room, and
// answers the place behind it.
#[tactic(auto, unfolding(crate::specs::Probe::probe_of))]
pub fn probe(bytes: &[u8], out: &mut [u8]) -> usize
    ensures { Puts out 0 (probe_of bytes.now) result }
{
    let mut page = Page::new(out);
    if fits(bytes) {
        ask_new(bytes, &mut page);
    } else {
        page.put_byte(255);
    }
    page.at
}
