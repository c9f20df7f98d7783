// A party record in twenty bytes: how it is read, which bytes are one, how it is put on a page.
ghost use Rattle.std.specs.Prelude.{◌≡◌, ◌∷◌, ◌+◌, ◌≤◌};
ghost use Rattle.calls.specs.Calls.{code_of};
ghost use Rattle.page.specs.Page.{PutsOn};
ghost use Rattle.probe_layout.specs.Bytes.{low};
ghost use Rattle.probe_layout.specs.Records.{place_numbered, place_bytes, record_at, record_fits, record_bytes};

use crate::bytes::InBytes;
use calls::Call;
use list_party::{Party, Place};
use page::Page;

// The place of a number, with its call and its key: no conversion, since a number alone makes no place.
fn place_numbered(number: u8, call: Call, key: u32) -> Place
    ensures { result ≡ place_numbered number call key }
{
    match number {
        0 => Place::Idle,
        1 => Place::Walk(call, key),
        2 => Place::Skip(call, key),
        3 => Place::AddSwap(call, key),
        4 => Place::Mark(call, key),
        5 => Place::Reread(call, key),
        6 => Place::Clean(call, key),
        7 => Place::Back(call, key),
        _ => Place::Look(call, key),
    }
}

// A place's number, its call's code and its key.
#[tactic(auto, using(page::proofs::Laws::put_put))]
fn put_numbered(page: &mut Page, number: u8, call: Call, key: u32)
    ensures { PutsOn page (number ∷ code_of call ∷ low 4 key) }
{
    page.put(&[number, call.code()]);
    key.put_on(page);
}

// The six bytes of a place; an idle party has neither call nor key, and zeros stand for them.
fn put_place(page: &mut Page, place: Place)
    ensures { PutsOn page (place_bytes place) }
{
    match place {
        Place::Idle => put_numbered(page, 0, Call::Add, 0),
        Place::Walk(call, key) => put_numbered(page, 1, call, key),
        Place::Skip(call, key) => put_numbered(page, 2, call, key),
        Place::AddSwap(call, key) => put_numbered(page, 3, call, key),
        Place::Mark(call, key) => put_numbered(page, 4, call, key),
        Place::Reread(call, key) => put_numbered(page, 5, call, key),
        Place::Clean(call, key) => put_numbered(page, 6, call, key),
        Place::Back(call, key) => put_numbered(page, 7, call, key),
        Place::Look(call, key) => put_numbered(page, 8, call, key),
    }
}

impl InBytes for Party {
    ghost WIDTH = { 20 };

    const WIDTH: usize = 20;

    ghost read_at = { record_at };

    ghost bytes_of = { record_bytes };

    #[tactic(auto, unfolding(crate::specs::Records::record_at))]
    fn read(bytes: &[u8], at: usize) -> Party {
        let call = Call::named(u32::from(u8::read(bytes, at + 1)));
        Party {
            place: place_numbered(u8::read(bytes, at), call, u32::read(bytes, at + 2)),
            p: u16::read(bytes, at + 6),
            n: u16::read(bytes, at + 8),
            c: u16::read(bytes, at + 10),
            s: u16::read(bytes, at + 12),
            r: u16::read(bytes, at + 14),
            own: u16::read(bytes, at + 16),
            unpublished: u8::read(bytes, at + 18) == 1,
        }
    }

    #[tactic(auto, using(page::proofs::Laws::put_put), unfolding(crate::specs::Records::record_bytes))]
    fn put_on(&self, page: &mut Page) {
        put_place(page, self.place);
        self.p.put_on(page);
        self.n.put_on(page);
        self.c.put_on(page);
        self.s.put_on(page);
        self.r.put_on(page);
        self.own.put_on(page);
        page.put(&[u8::from(self.unpublished), 0]);
    }
}

// Whether the twenty bytes from a place on are a party record.
#[tactic(auto, unfolding(crate::specs::Records::record_fits))]
pub(crate) fn record_fits(bytes: &[u8], at: usize) -> bool
    requires { at + 20 ≤ 1048576 }
    ensures { result ≡ record_fits bytes.now at }
{
    let place = u8::read(bytes, at);
    let call = u8::read(bytes, at + 1);
    let key = u32::read(bytes, at + 2);
    let flag = u8::read(bytes, at + 18);
    let last = u8::read(bytes, at + 19);
    (place <= 8)
        & (call <= 2)
        & ((place != 0) | ((call == 0) & (key == 0)))
        & (flag <= 1)
        & (last == 0)
}
