// What is put on the output: lengths, a state, columns.
ghost use Rattle.std.specs.Prelude.{◌≡◌};
ghost use Rattle.list_rows.specs.Table.{table_of};
ghost use Rattle.list_unchecked.specs.Unchecked.{machine};
ghost use Rattle.page.specs.Page.{PutsOn};
ghost use Rattle.probe_layout.specs.Bytes.{low};
ghost use Rattle.probe_layout.specs.Layout.{state_bytes, machine_bytes};

use crate::bytes::{InBytes, put_all};
use list_party::State;
use list_rows::Columns;
use page::Page;

// Two bytes of a number, the low byte first. Lengths are `usize`, and only their two low bytes go out.
#[tactic(auto, using(crate::proofs::Laws::low_two_alone))]
pub fn put_two(page: &mut Page, number: usize)
    ensures { PutsOn page (low 2 number) }
{
    ((number % 65536) as u16).put_on(page);
}

// P, T, moves, won and lost, then the party records.
#[tactic(auto, using(page::proofs::Laws::put_put), unfolding(crate::specs::Layout::state_bytes))]
fn put_state(page: &mut Page, state: &State)
    ensures { PutsOn page (state_bytes state.now) }
{
    u32::from(state.count).put_on(page);
    u32::from(state.taken).put_on(page);
    state.tallies.moves.put_on(page);
    state.tallies.won.put_on(page);
    state.tallies.lost.put_on(page);
    put_all(page, &state.parties);
}

// The lengths of the columns, the state, the columns.
#[tactic(auto, using(page::proofs::Laws::put_put), unfolding(crate::specs::Layout::machine_bytes))]
pub fn put_machine(page: &mut Page, columns: &Columns<'_>, state: &State)
    ensures { PutsOn page (machine_bytes (machine (table_of columns.now) state.now)) }
{
    put_two(page, columns.kind.len());
    put_two(page, columns.key.len());
    put_two(page, columns.next.len());
    put_two(page, columns.back.len());
    put_state(page, state);
    put_all(page, columns.kind);
    put_all(page, columns.key);
    put_all(page, columns.next);
    put_all(page, columns.back);
}
