// A line on a list that a program has set up itself: the refusals but 1 and 3, then the unchecked call or move.
#![tactic(auto)]

ghost use Rattle.std.specs.Prelude.{◌≡◌};
ghost use Rattle.refusal.specs.Answer.{left};
ghost use Rattle.calls.specs.Words.{reply_is};
ghost use Rattle.list_rows.specs.Table.{SameColumns};
ghost use Rattle.list_unchecked.specs.Unchecked.{columns_of, machine_of};
ghost use Rattle.list.specs.Run.{calls, moves};
ghost use Rattle.field.specs.Field.{load_of};
ghost use Rattle.field.specs.Readings.{loaded_is};
ghost use Rattle.list_play.specs.Play.{plain_event, field_in, party_in, loaded, line_of};

use calls::Said;
use list::{call_asks, move_asks};
use list_unchecked::Engine;
use refusal::Refusal;
use script::{CallLine, Line};

// Starts a call of a party.
#[tactic(auto, unfolding(crate::specs::Play::plain_event))]
fn plain_call(engine: &mut Engine<'_>, party: u32, code: u32, wanted: u32) -> Result<Said, Refusal>
    ensures leaves { left (machine_of engine.new) (reply_is result)
        ≡ plain_event (machine_of engine.old) (calls party code wanted) }
    ensures lent { SameColumns (columns_of engine.old) (columns_of engine.new) }
{
    let rows = engine.kind.len();
    let call = call_asks(&engine.state, rows, party, code)?;
    engine.call_unchecked(party, call, wanted);
    Ok(Said::Nothing)
}

// Makes one move of a party.
#[tactic(auto, unfolding(crate::specs::Play::plain_event))]
fn plain_move(engine: &mut Engine<'_>, party: u32) -> Result<Said, Refusal>
    ensures leaves { left (machine_of engine.new) (reply_is result)
        ≡ plain_event (machine_of engine.old) (moves party) }
    ensures lent { SameColumns (columns_of engine.old) (columns_of engine.new) }
{
    move_asks(&engine.state, party)?;
    Ok(engine.step_unchecked(party))
}

// The key in the field of a line. The order is a code, as `load` takes it, here and in all that leads to it.
#[tactic(auto, using(crate::proofs::Four::four_whole))]
fn load_field(line: CallLine, order: u32) -> Result<u32, Refusal>
    ensures { loaded_is result ≡ load_of (field_in line) 0 order }
{
    let field = line.field;
    field::load(&field, 0, order)
}

// Loads the key of a line and starts its call.
#[tactic(auto, unfolding(crate::specs::Play::loaded))]
fn play_call(engine: &mut Engine<'_>, order: u32, line: CallLine) -> Result<Said, Refusal>
    ensures leaves { left (machine_of engine.new) (reply_is result)
        ≡ loaded plain_event (machine_of engine.old) line (load_of (field_in line) 0 order) }
    ensures lent { SameColumns (columns_of engine.old) (columns_of engine.new) }
{
    let wanted = load_field(line, order)?;
    plain_call(engine, line.party, line.code, wanted)
}

// The party that a line names; where it names none, 0.
pub fn party_in(line: Line) -> u32
    ensures { result ≡ party_in line }
{
    match line {
        Line::Call(c) => c.party,
        Line::Step(party, _) => party,
        Line::End(_, _) | Line::Bad => 0,
    }
}

// A line of a schedule of this byte order: its call or its step. A line without either changes nothing. Does not test
// for 1 and 3.
#[tactic(auto, unfolding(crate::specs::Play::line_of))]
pub fn play_line(engine: &mut Engine<'_>, order: u32, line: Line) -> Result<Said, Refusal>
    ensures leaves { left (machine_of engine.new) (reply_is result)
        ≡ line_of plain_event order (machine_of engine.old) line }
    ensures lent { SameColumns (columns_of engine.old) (columns_of engine.new) }
{
    match line {
        Line::Call(c) => play_call(engine, order, c),
        Line::Step(party, _) => plain_move(engine, party),
        Line::End(_, _) | Line::Bad => Ok(Said::Nothing),
    }
}
