// A question in bytes: what is asked, a table and a state, read and written back; and which bytes fit the layout.
#![tactic(auto)]

mod bytes;
mod read;
mod records;
mod write;

ghost use Rattle.std.specs.Prelude.{◌≡◌};
ghost use Rattle.probe_layout.specs.Layout.{question_in};

use bytes::InBytes;
pub use bytes::put_all;
pub use read::{fits, read_table, state_in};
pub use write::{put_machine, put_two};

// The numbers before the state: which question, of which party, with which code and key, how many places, and the
// lengths of the columns. What is asked stays a number: any byte makes a question, and one over 3 does not fit.
#[derive(Clone, Copy)]
pub struct Question {
    pub what: u8,
    pub party: u32,
    pub code: u32,
    pub key: u32,
    pub places: u16,
    pub kinds: u16,
    pub keys: u16,
    pub nexts: u16,
    pub backs: u16,
}

// What is asked.
pub fn question_in(bytes: &[u8]) -> Question
    ensures { result ≡ question_in bytes.now }
{
    Question {
        what: u8::read(bytes, 0),
        party: u32::read(bytes, 1),
        code: u32::read(bytes, 5),
        key: u32::read(bytes, 9),
        places: u16::read(bytes, 13),
        kinds: u16::read(bytes, 15),
        keys: u16::read(bytes, 17),
        nexts: u16::read(bytes, 19),
        backs: u16::read(bytes, 21),
    }
}
