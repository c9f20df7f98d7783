// Parties and the state: what a party record holds, a record at its next place, the party table.
#![tactic(auto)]

ghost use Rattle.std.specs.Prelude.{◌≡◌};
ghost use Rattle.calls.specs.Tallies.{one_more};
ghost use Rattle.list_party.specs.Party.{blank, spare_of, idling, published, goes_to, is_idle, asked_at};
ghost use Rattle.list_party.specs.State.{party_at, with_party, with_taken, tallied, resting_state};

use calls::{Access, Asked, Call, Tallies};

// A party's place in the work: idle, or a place with the call and the key.
#[derive(Clone, Copy)]
pub enum Place {
    Idle,
    Walk(Call, u32),
    Skip(Call, u32),
    AddSwap(Call, u32),
    Mark(Call, u32),
    Reread(Call, u32),
    Clean(Call, u32),
    Back(Call, u32),
    Look(Call, u32),
}

// The rows that a party keeps at its place; one that the place does not keep is 0.
#[derive(Clone, Copy)]
pub struct Values {
    // the row below the key whose next ADDSWAP and CLEAN swap
    pub p: u16,
    // what the party expects to be the next of p
    pub n: u16,
    // the row at which the walk stands
    pub c: u16,
    // what MARK expects to be the next of c
    pub s: u16,
    // the row to which CLEAN leads p: what stood behind the removed row
    pub r: u16,
}

// A party record: its place, the values of the place, and its own row.
// The values stand in it by name and not as `Values`, and the flag beside own, since the theorems of grown lists
// (`list_grown`) speak of them so.
#[derive(Clone, Copy)]
pub struct Party {
    pub place: Place,
    pub p: u16,
    pub n: u16,
    pub c: u16,
    pub s: u16,
    pub r: u16,
    // the row of the call: an item, which a REMOVE makes a splice before MARK; idle or looking, the spare, or 0
    pub own: u16,
    // nobody has been led to own yet
    pub unpublished: bool,
}

// The parties, how many there are, how many rows are taken, and the tallies.
#[derive(Clone, Copy)]
pub struct State {
    pub parties: [Party; 16],
    pub count: u8,
    pub taken: u16,
    pub tallies: Tallies,
}

impl Values {
    // Nothing kept: a place names what it keeps, and the rest is from here.
    pub const NONE: Values = Values {
        p: 0,
        n: 0,
        c: 0,
        s: 0,
        r: 0,
    };
}

impl Place {
    // Whether a party at this place has no call.
    pub fn is_idle(self) -> bool
        ensures { result ≡ is_idle self }
    {
        matches!(self, Place::Idle)
    }

    // The call and the key that a place carries. An idle party has neither, and is never answered.
    pub fn asked(self) -> Asked
        ensures { result ≡ asked_at self }
    {
        match self {
            Place::Idle => Asked {
                call: Call::Contains,
                key: 0,
            },
            Place::Walk(call, key)
            | Place::Skip(call, key)
            | Place::AddSwap(call, key)
            | Place::Mark(call, key)
            | Place::Reread(call, key)
            | Place::Clean(call, key)
            | Place::Back(call, key)
            | Place::Look(call, key) => Asked { call, key },
        }
    }
}

// None of these tests or refuses anything: they make records and states of any numbers.
impl Party {
    // Idle without a spare. (Promised by name, so no `Default`.)
    pub fn blank() -> Party
        ensures { result ≡ blank }
    {
        Party {
            place: Place::Idle,
            p: 0,
            n: 0,
            c: 0,
            s: 0,
            r: 0,
            own: 0,
            unpublished: false,
        }
    }

    // The row that the party keeps when it has answered: an unpublished own, else none.
    fn spare(self) -> u16
        ensures { result ≡ spare_of self }
    {
        if self.unpublished { self.own } else { 0 }
    }

    // The party after its answer.
    pub fn idling(self) -> Party
        ensures { result ≡ idling self }
    {
        Party {
            own: self.spare(),
            unpublished: self.unpublished,
            ..Party::blank()
        }
    }

    // The party once a won swap has put its own row into the list.
    pub fn published(self) -> Party
        ensures { result ≡ published self }
    {
        Party {
            unpublished: false,
            ..self
        }
    }

    // The party at a place with these values; its own row stays with it.
    pub fn goes_to(self, place: Place, values: Values) -> Party
        ensures { result ≡ goes_to self place values }
    {
        Party {
            place,
            p: values.p,
            n: values.n,
            c: values.c,
            s: values.s,
            r: values.r,
            ..self
        }
    }
}

// The number of rows taken with one more; at the largest number it stays. Does not ask how many rows there are (7).
pub fn one_taken(taken: u16) -> u16
    ensures { result ≡ one_more 65535 taken }
{
    taken.saturating_add(1)
}

// These too test and refuse nothing. A state is changed where it stands.
impl State {
    // So many parties at rest and so many rows taken, nothing counted yet. Of no party and no row: what a program has
    // before its set-up.
    pub fn resting(parties: u8, taken: u16) -> State
        ensures { result ≡ resting_state parties taken }
    {
        State {
            parties: [Party::blank(); 16],
            count: parties,
            taken,
            tallies: Tallies::none(),
        }
    }

    // The record of a party; past the table, a blank one.
    pub fn party_at(&self, number: u32) -> Party
        ensures { result ≡ party_at self.now number }
    {
        self.parties
            .get(number as usize)
            .copied()
            .unwrap_or(Party::blank())
    }

    // Changes one party record; past the table, none.
    pub fn put_party(&mut self, number: u32, party: Party)
        ensures { self.new ≡ with_party self.old number party }
    {
        // (`as`, here and in `party_at`: there is no `From` between u32 and usize.)
        let i = number as usize;
        if i < self.parties.len() {
            self.parties[i] = party;
        }
    }

    // So many rows are taken now.
    pub fn put_taken(&mut self, taken: u16)
        ensures { self.new ≡ with_taken self.old taken }
    {
        self.taken = taken;
    }

    // Counts an access.
    pub fn tally(&mut self, access: Access)
        ensures { self.new ≡ tallied access self.old }
    {
        self.tallies = self.tallies.counted(access);
    }
}
