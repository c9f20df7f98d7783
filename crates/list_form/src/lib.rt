// Good form: whether the four columns and the state are such as the entry points work on.
#![tactic(auto)]

ghost use Rattle.std.specs.Prelude.{◌≡◌, ◌+◌, length};
ghost use Rattle.list_rows.specs.Table.{table_of};
ghost use Rattle.list_unchecked.specs.Unchecked.{machine};
ghost use Rattle.list_form.specs.Form.{
  columns_agree,
  taken_fits,
  kind_fits,
  key_fits,
  link_fits,
  all_pass,
  good_rows,
  rows_below,
  kept_at,
  removing,
  others_zero,
  can_reach,
  none_or_spare,
  own_fits,
  record_fits,
  party_fits,
  parties_fit,
  count_fits,
  tallies_fit,
  good_parties,
  good_form,
};

use calls::Tallies;
use list_party::{Party, Place, State};
use list_rows::{Columns, END, ITEM, SPLICE, UNUSED};

// Which of its values a party keeps.
#[derive(Clone, Copy)]
struct Kept {
    p: bool,
    n: bool,
    c: bool,
    s: bool,
    r: bool,
}

impl Kept {
    // idle
    const NONE: Kept = Kept {
        p: false,
        n: false,
        c: false,
        s: false,
        r: false,
    };

    // BACK
    const P: Kept = Kept {
        p: true,
        ..Kept::NONE
    };

    // ADDSWAP
    const P_N: Kept = Kept { n: true, ..Kept::P };

    // WALK, SKIP and REREAD
    const P_N_C: Kept = Kept {
        c: true,
        ..Kept::P_N
    };

    // MARK
    const P_N_C_S: Kept = Kept {
        s: true,
        ..Kept::P_N_C
    };

    // CLEAN
    const P_N_R: Kept = Kept {
        r: true,
        ..Kept::P_N
    };

    // LOOK
    const C: Kept = Kept {
        c: true,
        ..Kept::NONE
    };
}

// Whether the columns, given by their lengths, agree. Not that they have 4 to 4,096 rows (1).
pub fn columns_agree(kind: usize, key: usize, next: usize, back: usize) -> bool
    ensures { result ≡ columns_agree kind key next back }
{
    (key == kind) & (next == kind) & (back == kind)
}

// Whether the number of rows taken fits the length of the columns.
fn taken_fits(taken: u16, rows: usize) -> bool
    ensures { result ≡ taken_fits taken rows }
{
    (4 <= taken) & (usize::from(taken) <= rows)
}

// Whether a row may have a kind.
fn kind_fits(taken: usize, row: usize, kind: u8) -> bool
    ensures { result ≡ kind_fits taken row kind }
{
    if row < 4 {
        return kind == END;
    }
    if row < taken {
        return (kind == ITEM) | (kind == SPLICE);
    }
    kind == UNUSED
}

// Whether a row may have a key.
fn key_fits(taken: usize, row: usize, key: u32) -> bool
    ensures { result ≡ key_fits taken row key }
{
    (row < taken) | (key == 0)
}

// Whether a row may have a next or a back.
fn link_fits(taken: usize, row: usize, to: u16) -> bool
    ensures { result ≡ link_fits taken row to }
{
    if row < taken {
        return usize::from(to) < taken;
    }
    to == 0
}

// The next three differ in what they ask of an entry. With that test as a closure they would be one function, but the
// proof that the chain's answer is the closure's did not close.

// Whether all kinds fit.
fn kinds_fit(kind: &[u8], taken: u16) -> bool
    ensures { result ≡ all_pass (kind_fits taken) kind.now }
{
    kind.iter()
        .enumerate()
        .all(|(row, &kind)| kind_fits(usize::from(taken), row, kind))
}

// Whether all keys fit.
fn keys_fit(key: &[u32], taken: u16) -> bool
    ensures { result ≡ all_pass (key_fits taken) key.now }
{
    key.iter()
        .enumerate()
        .all(|(row, &key)| key_fits(usize::from(taken), row, key))
}

// Whether all nexts, or all backs, fit.
fn links_fit(links: &[u16], taken: u16) -> bool
    ensures { result ≡ all_pass (link_fits taken) links.now }
{
    links
        .iter()
        .enumerate()
        .all(|(row, &to)| link_fits(usize::from(taken), row, to))
}

// Whether every row number in a party record is below the number taken.
fn rows_below(taken: u16, party: Party) -> bool
    ensures { result ≡ rows_below taken party }
{
    (party.p < taken)
        & (party.n < taken)
        & (party.c < taken)
        & (party.s < taken)
        & (party.r < taken)
        & (party.own < taken)
}

// The values that a place keeps.
fn kept_at(place: Place) -> Kept
    ensures { result ≡ kept_at place }
{
    match place {
        Place::Idle => Kept::NONE,
        Place::Walk(_, _) | Place::Skip(_, _) | Place::Reread(_, _) => Kept::P_N_C,
        Place::AddSwap(_, _) => Kept::P_N,
        Place::Mark(_, _) => Kept::P_N_C_S,
        Place::Clean(_, _) => Kept::P_N_R,
        Place::Back(_, _) => Kept::P,
        Place::Look(_, _) => Kept::C,
    }
}

// Whether the party's call is a REMOVE.
fn removing(place: Place) -> bool
    ensures { result ≡ removing place }
{
    place.asked().call.is_remove()
}

// Whether values that are not kept are 0; a marked REMOVE keeps r wherever it is.
fn others_zero(kept: Kept, party: Party) -> bool
    ensures { result ≡ others_zero kept party }
{
    let marked = removing(party.place) & !party.unpublished;
    (kept.p | (party.p == 0))
        & (kept.n | (party.n == 0))
        & (kept.c | (party.c == 0))
        & (kept.s | (party.s == 0))
        & (kept.r | marked | (party.r == 0))
}

// Whether the party's call can reach its place.
fn can_reach(place: Place) -> bool
    ensures { result ≡ can_reach place }
{
    match place {
        Place::Idle => true,
        Place::Walk(call, _) | Place::Back(call, _) => call.is_add() | call.is_remove(),
        Place::Skip(call, _) | Place::AddSwap(call, _) => call.is_add(),
        Place::Mark(call, _) | Place::Reread(call, _) | Place::Clean(call, _) => call.is_remove(),
        Place::Look(call, _) => call.is_contains(),
    }
}

// No own row, or a spare.
fn none_or_spare(own: u16, unpublished: bool) -> bool
    ensures { result ≡ none_or_spare own unpublished }
{
    if unpublished { 4 <= own } else { own == 0 }
}

// Whether the own row fits the place.
fn own_fits(place: Place, own: u16, unpublished: bool) -> bool
    ensures { result ≡ own_fits place own unpublished }
{
    match place {
        Place::Idle | Place::Look(_, _) => none_or_spare(own, unpublished),
        Place::Walk(call, _) => (4 <= own) & (unpublished | !call.is_add()),
        Place::Skip(_, _) | Place::AddSwap(_, _) => (4 <= own) & unpublished,
        Place::Mark(_, _) | Place::Reread(_, _) => (4 <= own) & unpublished,
        Place::Clean(_, _) => (4 <= own) & !unpublished,
        Place::Back(call, _) => (4 <= own) & (unpublished == call.is_add()),
    }
}

// Whether a party record has good form.
#[tactic(auto, unfolding(crate::specs::Form::record_fits))]
fn record_fits(taken: u16, party: Party) -> bool
    ensures { result ≡ record_fits taken party }
{
    let place = party.place;
    rows_below(taken, party)
        & others_zero(kept_at(place), party)
        & can_reach(place)
        & own_fits(place, party.own, party.unpublished)
}

// Whether the record of party i fits; a place that no party uses is blank.
fn party_fits(taken: u16, count: u8, i: usize, party: Party) -> bool
    ensures { result ≡ party_fits taken count i party }
{
    record_fits(taken, party)
        & ((i < usize::from(count)) | party.place.is_idle() & (party.own == 0))
}

// Whether each record fits.
fn records_fit(parties: &[Party], taken: u16, count: u8) -> bool
    ensures { result ≡ all_pass (party_fits taken count) parties.now }
{
    parties
        .iter()
        .enumerate()
        .all(|(i, &party)| party_fits(taken, count, i, party))
}

// Whether all sixteen fit.
#[tactic(auto, using(crate::proofs::Rows::parties_passed), unfolding(crate::specs::Form::parties_fit))]
fn parties_fit(state: &State) -> bool
    ensures { result ≡ parties_fit state.now }
{
    records_fit(&state.parties, state.taken, state.count)
}

// Whether there is a party, and at most sixteen.
fn count_fits(count: u8) -> bool
    ensures { result ≡ count_fits count }
{
    (1 <= count) & (count <= 16)
}

// Whether the tallies fit each other and the limit of moves.
fn tallies_fit(tallies: Tallies) -> bool
    ensures { result ≡ tallies_fit tallies }
{
    let swaps = u64::from(tallies.won) + u64::from(tallies.lost);
    (swaps <= u64::from(tallies.moves)) & (tallies.moves <= 16777216)
}

// The rows' part of good form, with so many rows taken.
#[tactic(auto, using(crate::proofs::Rows::rows_passed), unfolding(crate::specs::Form::good_rows))]
fn good_rows(columns: &Columns<'_>, taken: u16) -> bool
    ensures { result ≡ good_rows (table_of columns.now) taken }
{
    columns_agree(
        columns.kind.len(),
        columns.key.len(),
        columns.next.len(),
        columns.back.len(),
    ) & taken_fits(taken, columns.kind.len())
        & kinds_fit(columns.kind, taken)
        & keys_fit(columns.key, taken)
        & links_fit(columns.next, taken)
        & links_fit(columns.back, taken)
}

// The parties' part of good form.
#[tactic(auto, unfolding(crate::specs::Form::good_parties))]
fn good_parties(state: &State) -> bool
    ensures { result ≡ good_parties state.now }
{
    count_fits(state.count) & parties_fit(state) & tallies_fit(state.tallies)
}

// Whether the columns and the state have good form. Refuses nothing, and does not ask for at most 4,096 rows (1).
#[tactic(auto, unfolding(crate::specs::Form::good_form))]
pub fn good_form(columns: &Columns<'_>, state: &State) -> bool
    ensures { result ≡ good_form (machine (table_of columns.now) state.now) }
{
    good_rows(columns, state.taken) & good_parties(state)
}
