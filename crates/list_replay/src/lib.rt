// A whole schedule: its text goes in, and its whole output is left in a lent buffer.
#![tactic(auto)]

ghost use Rattle.std.specs.Prelude.{◌≡◌, ◌≤◌};
ghost use Rattle.page.specs.Page.{Puts, PutsOn};
ghost use Rattle.list_rows.specs.Table.{table_of, SameColumns};
ghost use Rattle.list_unchecked.specs.Unchecked.{machine, columns_of, machine_of};
ghost use Rattle.list.specs.Run.{fresh};
ghost use Rattle.report.specs.Lines.{key_lines};
ghost use Rattle.script.specs.Body.{body_of};
ghost use Rattle.list_play.specs.Play.{plain_event, line_of};
ghost use Rattle.list_replay.specs.Output.{listed, closing, plain, line_says, played, output_of};

use list::{listing, set_up};
use list_party::State;
use list_play::{party_in, play_line};
use list_rows::Columns;
use list_unchecked::Engine;
use page::Page;
use report::{put_bad, put_keys, put_reply, put_tallies};
use script::{Head, Line, ends_body, first_bad, line_at, most_lines, next_of, read_head};

// Plays the line of this number, and prints what comes of it.
#[tactic(auto, unfolding(crate::specs::Output::line_says))]
fn run_line(engine: &mut Engine<'_>, order: u32, line: Line, number: usize, page: &mut Page<'_>)
    ensures plays { machine_of engine.new ≡ (line_of plain_event order (machine_of engine.old) line).memory }
    ensures lent { SameColumns (columns_of engine.old) (columns_of engine.new) }
    ensures says { PutsOn page (line_says plain_event order (machine_of engine.old) number line) }
{
    let party = party_in(line);
    let asked = engine.state.party_at(party).place.asked();
    let reply = play_line(engine, order, line);
    put_reply(page, number, party, asked, reply);
}

// One line for each key that a listing gives. (In a list that a schedule has grown `ListingStands`: it is not refused.)
#[tactic(auto, using(crate::proofs::Laws::listing_steps), unfolding(report::specs::Lines::key_lines))]
fn put_live(columns: &Columns<'_>, state: &State, page: &mut Page<'_>)
    ensures { PutsOn page (key_lines (listed (machine (table_of columns.now) state.now))) }
{
    let mut places = [0u32; 4096];
    if let Ok(count) = listing(columns, state, &mut places) {
        put_keys(page, &places[..count]);
    }
}

// The lines behind the last answer: keys and tallies.
#[tactic(auto, using(page::proofs::Laws::put_put), unfolding(crate::specs::Output::closing))]
fn put_closing(columns: &Columns<'_>, state: &State, page: &mut Page<'_>)
    ensures { PutsOn page (closing plain (machine (table_of columns.now) state.now)) }
{
    put_live(columns, state, page);
    put_tallies(page, state.tallies, state.taken);
}

// Runs the calls and steps of a text whose head this is, prints what comes of them, then the closing lines.
#[tactic(auto, using(crate::proofs::Laws::body_steps), unfolding(script::specs::Body::most_lines))]
fn run_body(text: &[u8], head: Head, engine: &mut Engine<'_>, page: &mut Page<'_>)
    ensures { PutsOn page (played plain head.order (machine_of engine.old) 0 (body_of text.now head)) }
{
    let mut at = head.next;
    for seen in 0..most_lines(text) {
        let line = line_at(text, at);
        if ends_body(line) {
            break;
        }
        run_line(engine, head.order, line, seen + 4, page);
        at = next_of(line);
    }
    put_closing(&engine.view(), &engine.state, page);
}

// Runs the text on a list of its own, of as many rows as its head says. Its memory is on this function's stack, since
// nothing is on a heap.
fn run_new(text: &[u8], head: Head, page: &mut Page<'_>)
    requires { head.nodes ≤ 4096 }
    ensures { PutsOn page (played plain head.order (fresh head.nodes head.parties) 0 (body_of text.now head)) }
{
    let mut kind = [0u8; 4096];
    let mut key = [0u32; 4096];
    let mut next = [0u16; 4096];
    let mut back = [0u16; 4096];
    // (`as`: there is no `From` between u32 and usize.)
    let rows = head.nodes as usize;
    let mut engine = Engine {
        kind: &mut kind[..rows],
        key: &mut key[..rows],
        next: &mut next[..rows],
        back: &mut back[..rows],
        state: State::resting(0, 0),
    };
    // With a good head a set-up is never refused.
    let _ = set_up(&mut engine, head.parties);
    run_body(text, head, &mut engine, page);
}

// Prints the output of a schedule's text.
#[tactic(auto, using(crate::proofs::Judged::out_cases))]
fn put_output(text: &[u8], page: &mut Page<'_>)
    ensures { PutsOn page (output_of text.now) }
{
    if 65536 < text.len() {
        return put_bad(page, 0);
    }
    let head = read_head(text);
    match first_bad(text, head) {
        Some(line) => put_bad(page, line),
        None => run_new(text, head, page),
    }
}

// Leaves the output of a schedule's text at the start of the buffer, as far as it has room, and answers the place
// behind what was put.
pub fn replay(text: &[u8], out: &mut [u8]) -> usize
    ensures { Puts out 0 (output_of text.now) result }
{
    let mut page = Page::new(out);
    put_output(text, &mut page);
    page.at
}
