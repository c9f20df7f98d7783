// The words of calls and answers: calls by code, what a move says, what came of an access, the tallies.
#![tactic(auto)]

ghost use Rattle.std.specs.Prelude.{◌≡◌};
ghost use Rattle.calls.specs.Calls.{call_named, code_of, is_add, is_remove, is_contains, CallOfCode};
ghost use Rattle.calls.specs.Tallies.{one_more, no_tallies, counted};

use refusal::Refusal;

// What a party is asked to do.
#[derive(Clone, Copy, Debug, PartialEq, Eq)]
pub enum Call {
    Add,
    Remove,
    Contains,
}

// A call with its key.
#[derive(Clone, Copy)]
pub struct Asked {
    pub call: Call,
    pub key: u32,
}

// What is said with a move: nothing yet, or the answer of the call. Three words of document 01, so no Option.
#[derive(Clone, Copy)]
pub enum Said {
    Nothing,
    Yes,
    No,
}

// What came of the access of a move.
#[derive(Clone, Copy)]
pub enum Access {
    None,
    Read,
    Won,
    Lost,
}

// The tallies: moves made, swaps won, swaps lost.
#[derive(Clone, Copy)]
pub struct Tallies {
    pub moves: u32,
    pub won: u32,
    pub lost: u32,
}

// The call of a code; any code over 2 names none and is refused.
impl TryFrom<u32> for Call {
    type Error = Refusal;

    ghost try_from_gives = { CallOfCode };

    fn try_from(code: u32) -> Result<Call, Refusal> {
        match code {
            0 => Ok(Call::Add),
            1 => Ok(Call::Remove),
            2 => Ok(Call::Contains),
            _ => Err(Refusal::NoSuchCall),
        }
    }
}

impl Call {
    // The call of a code in a party record. It cannot fail, and a code over 2 gives CONTAINS, as `record_at` of
    // `probe_layout` has it. The entry points use `try_from`.
    pub fn named(code: u32) -> Call
        ensures { result ≡ call_named code }
    {
        Call::try_from(code).unwrap_or(Call::Contains)
    }

    // The code of a call. (By name: `u8::from(call)` would not say which number is meant.)
    pub fn code(self) -> u8
        ensures { result ≡ code_of self }
    {
        match self {
            Call::Add => 0,
            Call::Remove => 1,
            Call::Contains => 2,
        }
    }

    // Which call it is: three promises by name, each with its own definition.
    pub fn is_add(self) -> bool
        ensures { result ≡ is_add self }
    {
        self == Call::Add
    }

    pub fn is_remove(self) -> bool
        ensures { result ≡ is_remove self }
    {
        self == Call::Remove
    }

    pub fn is_contains(self) -> bool
        ensures { result ≡ is_contains self }
    {
        self == Call::Contains
    }
}

// A tally with one more; at the largest number it stays.
fn one_more(tally: u32) -> u32
    ensures { result ≡ one_more 4294967295 tally }
{
    tally.saturating_add(1)
}

impl Tallies {
    // Nothing counted yet. (Promised by name, so no `Default`.)
    pub fn none() -> Tallies
        ensures { result ≡ no_tallies }
    {
        Tallies {
            moves: 0,
            won: 0,
            lost: 0,
        }
    }

    // The tallies with an access counted. Does not test the limit of moves (9).
    pub fn counted(self, access: Access) -> Tallies
        ensures { result ≡ counted access self }
    {
        match access {
            Access::None => self,
            Access::Read => Tallies {
                moves: one_more(self.moves),
                ..self
            },
            Access::Won => Tallies {
                moves: one_more(self.moves),
                won: one_more(self.won),
                ..self
            },
            Access::Lost => Tallies {
                moves: one_more(self.moves),
                lost: one_more(self.lost),
                ..self
            },
        }
    }
}
