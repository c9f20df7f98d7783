// What is read from a question: the state, the columns, and whether all of it fits the layout.
ghost use Rattle.std.specs.Prelude.{◌≡◌, true, ◌+◌, ◌*◌};
ghost use Rattle.logic.specs.Every.{every};
ghost use Rattle.list_rows.specs.Table.{table_held, SameColumns};
ghost use Rattle.probe_layout.specs.Records.{record_fits};
ghost use Rattle.probe_layout.specs.Layout.{table_in, rooms_fit, table_into, tallies_in, state_in, fits, end_of};

use crate::bytes::{InBytes, read_all};
use crate::question_in;
use crate::records::record_fits;
use calls::Tallies;
use list_party::{Party, State};
use list_rows::ColumnsMut;

// The tallies.
fn tallies_in(bytes: &[u8]) -> Tallies
    ensures { result ≡ tallies_in bytes.now }
{
    Tallies {
        moves: u32::read(bytes, 31),
        won: u32::read(bytes, 35),
        lost: u32::read(bytes, 39),
    }
}

// The state: the sixteen party records and the numbers before them.
#[tactic(auto, unfolding(crate::specs::Layout::state_in))]
pub fn state_in(bytes: &[u8]) -> State
    ensures { result ≡ state_in bytes.now }
{
    let mut parties = [Party::blank(); 16];
    read_all(bytes, 43, &mut parties);
    State {
        parties,
        count: u8::read(bytes, 23),
        taken: u16::read(bytes, 27),
        tallies: tallies_in(bytes),
    }
}

// Whether the columns have the lengths of the layout.
#[tactic(auto, unfolding(crate::specs::Layout::rooms_fit))]
fn rooms_fit(bytes: &[u8], columns: &ColumnsMut<'_>) -> bool
    ensures { result ≡ rooms_fit bytes.now (table_held columns.now) }
{
    let asked = question_in(bytes);
    (columns.kind.len() == usize::from(asked.kinds))
        & (columns.key.len() == usize::from(asked.keys))
        & (columns.next.len() == usize::from(asked.nexts))
        & (columns.back.len() == usize::from(asked.backs))
}

// Reads the table into columns of its lengths.
fn read_columns(bytes: &[u8], columns: &mut ColumnsMut<'_>)
    requires { rooms_fit bytes.now (table_held columns.old) ≡ true }
    ensures written { table_held columns.new ≡ table_in bytes.now }
    ensures lent { SameColumns columns.old columns.new }
{
    let asked = question_in(bytes);
    let keys_from = 363 + usize::from(asked.kinds);
    let nexts_from = keys_from + 4 * usize::from(asked.keys);
    let backs_from = nexts_from + 2 * usize::from(asked.nexts);
    read_all(bytes, 363, columns.kind);
    read_all(bytes, keys_from, columns.key);
    read_all(bytes, nexts_from, columns.next);
    read_all(bytes, backs_from, columns.back);
}

// Reads the table into columns that have its lengths; others stay.
#[tactic(auto, unfolding(crate::specs::Layout::table_into))]
pub fn read_table(bytes: &[u8], columns: &mut ColumnsMut<'_>)
    ensures written { table_held columns.new ≡ table_into bytes.now (table_held columns.old) }
    ensures lent { SameColumns columns.old columns.new }
{
    if rooms_fit(bytes, columns) {
        read_columns(bytes, columns);
    }
}

// The length that the lengths of the columns ask for.
fn end_of(bytes: &[u8]) -> usize
    ensures { result ≡ end_of bytes.now }
{
    let asked = question_in(bytes);
    363 + usize::from(asked.kinds)
        + 4 * usize::from(asked.keys)
        + 2 * usize::from(asked.nexts)
        + 2 * usize::from(asked.backs)
}

// Whether all sixteen party records fit.
fn records_fit(bytes: &[u8]) -> bool
    ensures { result ≡ every (λ i. record_fits bytes.now (43 + 20 * i)) 16 }
{
    (0..16).all(|i| record_fits(bytes, 43 + 20 * i))
}

// Whether the bytes fit the layout.
#[tactic(auto, unfolding(crate::specs::Layout::fits))]
pub fn fits(bytes: &[u8]) -> bool
    ensures { result ≡ fits bytes.now }
{
    let asked = question_in(bytes);
    let table = (asked.places <= 4200)
        & (asked.kinds <= 4200)
        & (asked.keys <= 4200)
        & (asked.nexts <= 4200)
        & (asked.backs <= 4200);
    let long = bytes.len() == end_of(bytes);
    let count = u32::read(bytes, 23) < 256;
    let taken = u32::read(bytes, 27) < 65536;
    (asked.what <= 3) & table & long & (count & taken) & records_fit(bytes)
}
