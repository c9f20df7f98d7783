// The refusals of the engine by plain names, and the number of each.
#![tactic(auto)]

ghost use Rattle.std.specs.Prelude.{◌≡◌};
ghost use Rattle.refusal.specs.Number.{number_of};

// One case for each row of the table of refusal numbers, in that order. What refuses answers `Result<_, Refusal>`.
#[derive(Clone, Copy, Debug, PartialEq, Eq)]
pub enum Refusal {
    // 1: the columns differ in length, or are shorter than 4 rows or longer than 4,096.
    BadColumns,
    // 2: a set-up for no party, or for more than 16.
    BadParties,
    // 3: the state has not good form; or the chain that a listing follows does not rise to row 2.
    BadForm,
    // 4: the party's number is not below the number of parties.
    NoSuchParty,
    // 5: a call on a party that has not answered its last one.
    PartyBusy,
    // 6: a call code other than 0 ADD, 1 REMOVE and 2 CONTAINS.
    NoSuchCall,
    // 7: an ADD or a REMOVE that needs a row, and all rows are taken.
    TableFull,
    // 8: a move of a party that has no call.
    PartyIdle,
    // 9: a move after 16,777,216 moves.
    MovesSpent,
    // 10: a field that sticks out of its record, or a listing that is lent too few places for the live keys.
    NoRoom,
    // 11: an order code other than 0 and 1.
    NoSuchOrder,
}

impl Refusal {
    // The number by which users know the refusal. (By name: `u8::from(why)` would not say which number is meant.)
    pub fn number(self) -> u8
        ensures { result ≡ number_of self }
    {
        match self {
            Refusal::BadColumns => 1,
            Refusal::BadParties => 2,
            Refusal::BadForm => 3,
            Refusal::NoSuchParty => 4,
            Refusal::PartyBusy => 5,
            Refusal::NoSuchCall => 6,
            Refusal::TableFull => 7,
            Refusal::PartyIdle => 8,
            Refusal::MovesSpent => 9,
            Refusal::NoRoom => 10,
            Refusal::NoSuchOrder => 11,
        }
    }
}
