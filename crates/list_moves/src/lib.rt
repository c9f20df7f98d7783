// The moves, one function for each place: what a party does with the one access that it makes there.
#![tactic(auto)]

ghost use Rattle.std.specs.Prelude.{◌≡◌};
ghost use Rattle.list_rows.specs.Table.{table_of};
ghost use Rattle.list_moves.specs.Moves.{
  goes_on,
  readies,
  answers,
  swap_of,
  prepare_of,
  onward_of,
  landed_add_of,
  landed_unmarked_of,
  landed_marked_of,
  landed_remove_of,
  landed_contains_of,
  walk_of,
  skip_of,
  add_swap_of,
  mark_of,
  reread_of,
  clean_of,
  back_of,
  look_on_of,
  look_of,
  move_at,
};

use calls::{Access, Asked, Call, Said};
use list_party::{Party, Place, Values};
use list_rows::{Columns, Row, Write};

// What a move comes to: the party after it, what is said, what came of the access, what is written.
#[derive(Clone, Copy)]
pub struct Moved {
    pub party: Party,
    pub said: Said,
    pub access: Access,
    pub write: Write,
}

// A swap of the next of a row, from the row that is expected there to another.
#[derive(Clone, Copy)]
struct Swap {
    row: u16,
    from: u16,
    to: u16,
}

// After a read the call goes on.
fn goes_on(party: Party) -> Moved
    ensures { result ≡ goes_on party }
{
    Moved {
        party,
        said: Said::Nothing,
        access: Access::Read,
        write: Write::Untouched,
    }
}

// After a read the own row is made ready for a swap.
fn readies(party: Party, write: Write) -> Moved
    ensures { result ≡ readies party write }
{
    Moved {
        write,
        ..goes_on(party)
    }
}

// After a read the call is answered.
fn answers(party: Party, answer: Said) -> Moved
    ensures { result ≡ answers party answer }
{
    Moved {
        said: answer,
        ..goes_on(party.idling())
    }
}

// A swap: won if the next still holds the expected row, else lost, and then no row changes.
fn try_swap(columns: &Columns<'_>, what: Swap, won: Party, said: Said, lost: Party) -> Moved
    ensures { result ≡ swap_of (table_of columns.now) what won said lost }
{
    if columns.next_at(what.row) == what.from {
        return Moved {
            party: won,
            said,
            access: Access::Won,
            write: Write::Link(what.row, what.to),
        };
    }
    Moved {
        party: lost,
        said: Said::Nothing,
        access: Access::Lost,
        write: Write::Untouched,
    }
}

// The own row is linked to where the walk has ended, and the swap comes next.
#[tactic(auto, unfolding(crate::specs::Moves::prepare_of))]
fn prepare(party: Party, asked: Asked) -> Moved
    ensures { result ≡ prepare_of party asked.call asked.key }
{
    let kept = Values {
        p: party.p,
        n: party.n,
        ..Values::NONE
    };
    let link = Write::Link(party.own, party.c);
    readies(
        party.goes_to(Place::AddSwap(asked.call, asked.key), kept),
        link,
    )
}

// WALK below the key: past a removed row c moves alone, else p and n come along.
#[tactic(auto, unfolding(crate::specs::Moves::onward_of))]
fn onward(columns: &Columns<'_>, party: Party, asked: Asked) -> Moved
    ensures { result ≡ onward_of (table_of columns.now) party asked.call asked.key }
{
    let s = columns.next_at(party.c);
    if Row(s).is_splice(columns) {
        let beyond = columns.next_at(s);
        let past = Values {
            p: party.p,
            n: party.n,
            c: beyond,
            r: party.r,
            ..Values::NONE
        };
        return goes_on(party.goes_to(Place::Walk(asked.call, asked.key), past));
    }
    let on = Values {
        p: party.c,
        n: s,
        c: s,
        r: party.r,
        ..Values::NONE
    };
    goes_on(party.goes_to(Place::Walk(asked.call, asked.key), on))
}

// An ADD that has landed.
#[tactic(auto, unfolding(crate::specs::Moves::landed_add_of))]
fn landed_add(columns: &Columns<'_>, party: Party, wanted: u32) -> Moved
    ensures { result ≡ landed_add_of (table_of columns.now) party wanted }
{
    let s = columns.next_at(party.c);
    if Row(s).is_splice(columns) {
        let beyond = columns.next_at(s);
        let past = Values {
            p: party.p,
            n: party.n,
            c: beyond,
            ..Values::NONE
        };
        return goes_on(party.goes_to(Place::Skip(Call::Add, wanted), past));
    }
    if Row(party.c).equals_key(columns, wanted) {
        return answers(party, Said::No);
    }
    let asked = Asked {
        call: Call::Add,
        key: wanted,
    };
    prepare(party, asked)
}

// A REMOVE that is not yet marked has landed.
#[tactic(auto, unfolding(crate::specs::Moves::landed_unmarked_of))]
fn landed_unmarked(columns: &Columns<'_>, party: Party, wanted: u32) -> Moved
    ensures { result ≡ landed_unmarked_of (table_of columns.now) party wanted }
{
    let s = columns.next_at(party.c);
    let differs = !Row(party.c).equals_key(columns, wanted);
    if differs | Row(s).is_splice(columns) {
        return answers(party, Said::No);
    }
    let kept = Values {
        p: party.p,
        n: party.n,
        c: party.c,
        s,
        ..Values::NONE
    };
    let splice = Write::Splice(party.own, s, party.p);
    readies(
        party.goes_to(Place::Mark(Call::Remove, wanted), kept),
        splice,
    )
}

// A REMOVE that is already marked has landed: where its splice is gone somebody has cleaned up.
#[tactic(auto, unfolding(crate::specs::Moves::landed_marked_of))]
fn landed_marked(columns: &Columns<'_>, party: Party, wanted: u32) -> Moved
    ensures { result ≡ landed_marked_of (table_of columns.now) party wanted }
{
    let s = columns.next_at(party.c);
    if s != party.own {
        return answers(party, Said::Yes);
    }
    let kept = Values {
        p: party.p,
        n: party.n,
        r: party.r,
        ..Values::NONE
    };
    goes_on(party.goes_to(Place::Clean(Call::Remove, wanted), kept))
}

// A REMOVE that has landed; it is marked if its own row is published.
#[tactic(auto, unfolding(crate::specs::Moves::landed_remove_of))]
fn landed_remove(columns: &Columns<'_>, party: Party, wanted: u32) -> Moved
    ensures { result ≡ landed_remove_of (table_of columns.now) party wanted }
{
    if party.unpublished {
        return landed_unmarked(columns, party, wanted);
    }
    landed_marked(columns, party, wanted)
}

// A CONTAINS that has landed.
#[tactic(auto, unfolding(crate::specs::Moves::landed_contains_of))]
fn landed_contains(columns: &Columns<'_>, party: Party, wanted: u32) -> Moved
    ensures { result ≡ landed_contains_of (table_of columns.now) party wanted }
{
    let s = columns.next_at(party.c);
    let equal = Row(party.c).equals_key(columns, wanted);
    if equal & !Row(s).is_splice(columns) {
        return answers(party, Said::Yes);
    }
    answers(party, Said::No)
}

// WALK: one row on while c is below the key; else c has landed, and the call says what that means.
#[tactic(auto, unfolding(crate::specs::Moves::walk_of))]
fn walk(columns: &Columns<'_>, party: Party, asked: Asked) -> Moved
    ensures { result ≡ walk_of (table_of columns.now) party asked.call asked.key }
{
    if Row(party.c).below_key(columns, asked.key) {
        return onward(columns, party, asked);
    }
    match asked.call {
        Call::Add => landed_add(columns, party, asked.key),
        Call::Remove => landed_remove(columns, party, asked.key),
        Call::Contains => landed_contains(columns, party, asked.key),
    }
}

// SKIP: past removed rows, without another look at the key.
#[tactic(auto, unfolding(crate::specs::Moves::skip_of))]
fn skip(columns: &Columns<'_>, party: Party, asked: Asked) -> Moved
    ensures { result ≡ skip_of (table_of columns.now) party asked.call asked.key }
{
    let s = columns.next_at(party.c);
    if Row(s).is_splice(columns) {
        let beyond = columns.next_at(s);
        let past = Values {
            p: party.p,
            n: party.n,
            c: beyond,
            ..Values::NONE
        };
        return goes_on(party.goes_to(Place::Skip(asked.call, asked.key), past));
    }
    prepare(party, asked)
}

// ADDSWAP: the own row goes in behind p, unless something else than n stands there by now.
#[tactic(auto, unfolding(crate::specs::Moves::add_swap_of))]
fn add_swap(columns: &Columns<'_>, party: Party, asked: Asked) -> Moved
    ensures { result ≡ add_swap_of (table_of columns.now) party asked.call asked.key }
{
    let what = Swap {
        row: party.p,
        from: party.n,
        to: party.own,
    };
    let kept = Values {
        p: party.p,
        r: party.r,
        ..Values::NONE
    };
    let won = party.published().idling();
    let lost = party.goes_to(Place::Back(asked.call, asked.key), kept);
    try_swap(columns, what, won, Said::Yes, lost)
}

// MARK: the own splice goes in behind c, which removes c, unless something else stands there by now.
#[tactic(auto, unfolding(crate::specs::Moves::mark_of))]
fn mark(columns: &Columns<'_>, party: Party, asked: Asked) -> Moved
    ensures { result ≡ mark_of (table_of columns.now) party asked.call asked.key }
{
    let what = Swap {
        row: party.c,
        from: party.s,
        to: party.own,
    };
    let then = Values {
        p: party.p,
        n: party.n,
        r: party.s,
        ..Values::NONE
    };
    let kept = Values {
        p: party.p,
        n: party.n,
        c: party.c,
        ..Values::NONE
    };
    let won = party
        .published()
        .goes_to(Place::Clean(asked.call, asked.key), then);
    let lost = party.goes_to(Place::Reread(asked.call, asked.key), kept);
    try_swap(columns, what, won, Said::Nothing, lost)
}

// REREAD: a splice behind c means that another party was first; else the own splice is led to what stands there now.
#[tactic(auto, unfolding(crate::specs::Moves::reread_of))]
fn reread(columns: &Columns<'_>, party: Party, asked: Asked) -> Moved
    ensures { result ≡ reread_of (table_of columns.now) party asked.call asked.key }
{
    let s = columns.next_at(party.c);
    if Row(s).is_splice(columns) {
        return answers(party, Said::No);
    }
    let kept = Values {
        p: party.p,
        n: party.n,
        c: party.c,
        s,
        ..Values::NONE
    };
    let link = Write::Link(party.own, s);
    readies(
        party.goes_to(Place::Mark(asked.call, asked.key), kept),
        link,
    )
}

// CLEAN: p is led past the removed rows, unless something else stands behind p by now.
#[tactic(auto, unfolding(crate::specs::Moves::clean_of))]
fn clean(columns: &Columns<'_>, party: Party, asked: Asked) -> Moved
    ensures { result ≡ clean_of (table_of columns.now) party asked.call asked.key }
{
    let what = Swap {
        row: party.p,
        from: party.n,
        to: party.r,
    };
    let kept = Values {
        p: party.p,
        r: party.r,
        ..Values::NONE
    };
    let lost = party.goes_to(Place::Back(asked.call, asked.key), kept);
    try_swap(columns, what, party.idling(), Said::Yes, lost)
}

// BACK: from a removed p to the row that its splice names, and stay; from any other p the walk starts again.
#[tactic(auto, unfolding(crate::specs::Moves::back_of))]
fn go_back(columns: &Columns<'_>, party: Party, asked: Asked) -> Moved
    ensures { result ≡ back_of (table_of columns.now) party asked.call asked.key }
{
    let n = columns.next_at(party.p);
    if Row(n).is_splice(columns) {
        let earlier = columns.back_at(n);
        let kept = Values {
            p: earlier,
            r: party.r,
            ..Values::NONE
        };
        return goes_on(party.goes_to(Place::Back(asked.call, asked.key), kept));
    }
    let again = Values {
        p: party.p,
        n,
        c: n,
        r: party.r,
        ..Values::NONE
    };
    goes_on(party.goes_to(Place::Walk(asked.call, asked.key), again))
}

// LOOK below the key: one row on, through a splice.
#[tactic(auto, unfolding(crate::specs::Moves::look_on_of))]
fn look_on(columns: &Columns<'_>, party: Party, asked: Asked) -> Moved
    ensures { result ≡ look_on_of (table_of columns.now) party asked.call asked.key }
{
    let s = columns.next_at(party.c);
    if Row(s).is_splice(columns) {
        let beyond = columns.next_at(s);
        let past = Values {
            c: beyond,
            ..Values::NONE
        };
        return goes_on(party.goes_to(Place::Look(asked.call, asked.key), past));
    }
    let on = Values {
        c: s,
        ..Values::NONE
    };
    goes_on(party.goes_to(Place::Look(asked.call, asked.key), on))
}

// LOOK: on while c is below the key; else c has landed.
#[tactic(auto, unfolding(crate::specs::Moves::look_of))]
fn look(columns: &Columns<'_>, party: Party, asked: Asked) -> Moved
    ensures { result ≡ look_of (table_of columns.now) party asked.call asked.key }
{
    if Row(party.c).below_key(columns, asked.key) {
        return look_on(columns, party, asked);
    }
    landed_contains(columns, party, asked.key)
}

// The move of a party at its place; an idle one makes no access. Nothing is tested or refused.
pub fn place_move(columns: &Columns<'_>, party: Party) -> Moved
    ensures { result ≡ move_at party.place (table_of columns.now) party }
{
    let asked = party.place.asked();
    match party.place {
        Place::Idle => Moved {
            party,
            said: Said::Nothing,
            access: Access::None,
            write: Write::Untouched,
        },
        Place::Walk(..) => walk(columns, party, asked),
        Place::Skip(..) => skip(columns, party, asked),
        Place::AddSwap(..) => add_swap(columns, party, asked),
        Place::Mark(..) => mark(columns, party, asked),
        Place::Reread(..) => reread(columns, party, asked),
        Place::Clean(..) => clean(columns, party, asked),
        Place::Back(..) => go_back(columns, party, asked),
        Place::Look(..) => look(columns, party, asked),
    }
}
