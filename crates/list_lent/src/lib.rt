// The entry points for columns that a caller lends one by one: what an answer leaves is known of the caller's columns.
#![tactic(auto)]

ghost use Rattle.std.specs.Prelude.{◌≡◌};
ghost use Rattle.refusal.specs.Answer.{left, verdict_is};
ghost use Rattle.calls.specs.Words.{reply_is};
ghost use Rattle.list_rows.specs.Table.{tab};
ghost use Rattle.list_unchecked.specs.Unchecked.{machine};
ghost use Rattle.list.specs.Engine.{set_up_of, call_of, move_of};

use calls::Said;
use list_party::State;
use list_unchecked::Engine;
use refusal::Refusal;

// Lays an empty list for so many parties into the columns. Refusals 1, 2; refused, all is as it came.
pub fn set_up(
    kind: &mut [u8],
    key: &mut [u32],
    next: &mut [u16],
    back: &mut [u16],
    state: &mut State,
    parties: u32,
) -> Result<(), Refusal>
    ensures { left (machine (tab kind.new key.new next.new back.new) state.new) (verdict_is result)
        ≡ set_up_of (machine (tab kind.old key.old next.old back.old) state.old) parties }
{
    let mut engine = Engine {
        kind,
        key,
        next,
        back,
        state: *state,
    };
    let done = list::set_up(&mut engine, parties);
    *state = engine.state;
    done
}

// Starts a call of a party. Refusals 1, 3, 4, 5, 6, 7; refused, all is as it came.
pub fn call(
    kind: &mut [u8],
    key: &mut [u32],
    next: &mut [u16],
    back: &mut [u16],
    state: &mut State,
    number: u32,
    code: u32,
    wanted: u32,
) -> Result<(), Refusal>
    ensures { left (machine (tab kind.new key.new next.new back.new) state.new) (verdict_is result)
        ≡ call_of (machine (tab kind.old key.old next.old back.old) state.old) number code wanted }
{
    let mut engine = Engine {
        kind,
        key,
        next,
        back,
        state: *state,
    };
    let started = list::call(&mut engine, number, code, wanted);
    *state = engine.state;
    started
}

// Makes one move of a party. Refusals 1, 3, 4, 8, 9; refused, all is as it came.
pub fn step(
    kind: &mut [u8],
    key: &mut [u32],
    next: &mut [u16],
    back: &mut [u16],
    state: &mut State,
    number: u32,
) -> Result<Said, Refusal>
    ensures { left (machine (tab kind.new key.new next.new back.new) state.new) (reply_is result)
        ≡ move_of (machine (tab kind.old key.old next.old back.old) state.old) number }
{
    let mut engine = Engine {
        kind,
        key,
        next,
        back,
        state: *state,
    };
    let said = list::step(&mut engine, number);
    *state = engine.state;
    said
}
