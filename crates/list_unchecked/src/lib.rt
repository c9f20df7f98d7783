// A call and a move without any test. They refuse nothing: they serve the entry points of `list`, which test first,
// and programs that start from a set-up of their own.
#![tactic(auto)]

ghost use Rattle.std.specs.Prelude.{◌≡◌};
ghost use Rattle.calls.specs.declared.Call.TheVariants.{Contains};
ghost use Rattle.list_rows.specs.Table.{table_of, table_held, SameColumns};
ghost use Rattle.list_rows.specs.Writes.{written};
ghost use Rattle.list_moves.specs.Moves.{move_at};
ghost use Rattle.list_unchecked.specs.Unchecked.{
  columns_of,
  machine,
  machine_of,
  party_of,
  own_row,
  taken_then,
  starting,
  start_of,
  begun_of,
  unchecked_call,
  made,
  unchecked_move,
};

use calls::{Asked, Call, Said};
use list_moves::{Moved, place_move};
use list_party::{Party, Place, State, Values, one_taken};
use list_rows::{Columns, ColumnsMut, Row, Write};

// All that the engine works on: the four lent columns and the state. The columns stand in it side by side: of slices
// in a struct within a struct the proofs would not tell the one who lent them what they hold afterwards.
#[derive(Drop)]
pub struct Engine<'a> {
    pub kind: &'a mut [u8],
    pub key: &'a mut [u32],
    pub next: &'a mut [u16],
    pub back: &'a mut [u16],
    pub state: State,
}

// What a call comes to: the party after it, what is written, how many rows are then taken.
#[derive(Clone, Copy)]
struct Begun {
    party: Party,
    write: Write,
    taken: u16,
}

// The row of an ADD or a REMOVE: the spare, else the next row that nobody has taken.
fn own_row(state: &State, party: Party) -> u16
    ensures { result ≡ own_row state.now party }
{
    if party.unpublished {
        party.own
    } else {
        state.taken
    }
}

// How many rows are then taken.
fn taken_then(state: &State, party: Party) -> u16
    ensures { result ≡ taken_then state.now party }
{
    if party.unpublished {
        state.taken
    } else {
        one_taken(state.taken)
    }
}

// An ADD or a REMOVE at its start, between rows 0 and 1, with its own row.
fn starting(asked: Asked, own: u16) -> Party
    ensures { result ≡ starting asked.call asked.key own }
{
    let first = Values {
        p: Row::HEAD.0,
        n: Row::HEAD_NXT.0,
        c: Row::HEAD_NXT.0,
        ..Values::NONE
    };
    let with_own = Party {
        own,
        unpublished: true,
        ..Party::blank()
    };
    with_own.goes_to(Place::Walk(asked.call, asked.key), first)
}

// An ADD or a REMOVE starts.
fn start(state: &State, party: Party, asked: Asked) -> Begun
    ensures { result ≡ start_of state.now party asked.call asked.key }
{
    let own = own_row(state, party);
    Begun {
        party: starting(asked, own),
        write: Write::Item(own, asked.key),
        taken: taken_then(state, party),
    }
}

// A CONTAINS starts, and takes no row.
#[tactic(auto, unfolding(crate::specs::Unchecked::begun_of))]
fn look(state: &State, party: Party, wanted: u32) -> Begun
    ensures { result ≡ begun_of state.now party Contains wanted }
{
    let first = Values {
        c: Row::HEAD_NXT.0,
        ..Values::NONE
    };
    Begun {
        party: party.goes_to(Place::Look(Call::Contains, wanted), first),
        write: Write::Untouched,
        taken: state.taken,
    }
}

// A call starts.
#[tactic(auto, unfolding(crate::specs::Unchecked::begun_of))]
fn begin(state: &State, party: Party, asked: Asked) -> Begun
    ensures { result ≡ begun_of state.now party asked.call asked.key }
{
    match asked.call {
        Call::Add | Call::Remove => start(state, party, asked),
        Call::Contains => look(state, party, asked.key),
    }
}

// None of these tests or refuses anything.
impl Engine<'_> {
    // The columns, lent on to be read.
    pub fn view(&self) -> Columns<'_>
        ensures { table_of result ≡ table_held (columns_of self.now) }
    {
        Columns {
            kind: self.kind,
            key: self.key,
            next: self.next,
            back: self.back,
        }
    }

    // Makes a write in the columns.
    fn apply(&mut self, what: Write)
        ensures written { machine_of self.new ≡ machine (written what (machine_of self.old).table) self.old.state }
        ensures lent { SameColumns (columns_of self.old) (columns_of self.new) }
    {
        let mut columns = ColumnsMut {
            kind: &mut *self.kind,
            key: &mut *self.key,
            next: &mut *self.next,
            back: &mut *self.back,
        };
        columns.apply(what);
    }

    // Starts a call of a party. The call and the key stand apart, as in its definition and in the entry point.
    #[tactic(auto, unfolding(crate::specs::Unchecked::unchecked_call))]
    pub fn call_unchecked(&mut self, number: u32, call: Call, wanted: u32)
        ensures called { machine_of self.new ≡ unchecked_call (machine_of self.old) number call wanted }
        ensures lent { SameColumns (columns_of self.old) (columns_of self.new) }
    {
        let asked = Asked { call, key: wanted };
        let begun = begin(&self.state, self.state.party_at(number), asked);
        self.apply(begun.write);
        self.state.put_party(number, begun.party);
        self.state.put_taken(begun.taken);
    }

    // What a move of a party comes to.
    fn moved(&self, number: u32) -> Moved
        ensures { result ≡ move_at (party_of (machine_of self.now) number).place (machine_of self.now).table
            (party_of (machine_of self.now) number) }
    {
        place_move(&self.view(), self.state.party_at(number))
    }

    // Makes one move of a party; of an idle one, none.
    #[tactic(auto, unfolding(crate::specs::Unchecked::unchecked_move))]
    pub fn step_unchecked(&mut self, number: u32) -> Said
        ensures moved { made (machine_of self.new) result ≡ unchecked_move (machine_of self.old) number }
        ensures lent { SameColumns (columns_of self.old) (columns_of self.new) }
    {
        let moved = self.moved(number);
        self.apply(moved.write);
        self.state.put_party(number, moved.party);
        self.state.tally(moved.access);
        moved.said
    }
}
