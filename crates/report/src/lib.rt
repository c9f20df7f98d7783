// The lines of a schedule's output: answers and refusals, then keys and tallies; or the bad line.
#![tactic(auto)]

ghost use Rattle.calls.specs.Calls.{name_of};
ghost use Rattle.calls.specs.Words.{word_of, reply_is};
ghost use Rattle.page.specs.Page.{PutsOn};
ghost use Rattle.refusal.specs.Number.{number_of};
ghost use Rattle.report.specs.Lines.{
  asked_text,
  answer_line,
  refused_line,
  heard,
  reply_line,
  number_line,
  key_line,
  key_lines,
  tally_lines,
  bad_line,
};

use calls::{Asked, Call, Said, Tallies};
use page::Page;
use refusal::Refusal;

// The name of a call. (By hand, as all that is put on a page: see `Page`, which is no `fmt::Write`.)
fn put_call(page: &mut Page, call: Call)
    ensures { PutsOn page (name_of call) }
{
    match call {
        Call::Add => page.put(b"add"),
        Call::Remove => page.put(b"remove"),
        Call::Contains => page.put(b"contains"),
    }
}

// The call and the key.
#[tactic(auto, using(page::proofs::Laws::put_put), unfolding(crate::specs::Lines::asked_text))]
fn put_asked(page: &mut Page, asked: Asked)
    ensures { PutsOn page (asked_text asked) }
{
    put_call(page, asked.call);
    page.put(b" ");
    page.put_number(u64::from(asked.key));
}

// answer=P call key, and yes or no
#[tactic(auto, using(page::proofs::Laws::put_put), unfolding(crate::specs::Lines::answer_line))]
fn put_answer(page: &mut Page, party: u32, asked: Asked, word: &[u8])
    ensures { PutsOn page (answer_line party asked word.now) }
{
    page.put(b"answer=");
    page.put_number(u64::from(party));
    page.put(b" ");
    put_asked(page, asked);
    page.put(b" ");
    page.put(word);
    page.put(b"\n");
}

// refused=line number
#[tactic(auto, using(page::proofs::Laws::put_put), unfolding(crate::specs::Lines::refused_line))]
fn put_refused(page: &mut Page, line: usize, why: Refusal)
    ensures { PutsOn page (refused_line line (number_of why)) }
{
    page.put(b"refused=");
    page.put_number(line as u64);
    page.put(b" ");
    page.put_number(u64::from(why.number()));
    page.put(b"\n");
}

// What is printed for something heard: nothing until the answer falls.
#[tactic(auto, using(page::proofs::Laws::put_nothing), unfolding(crate::specs::Lines::heard))]
fn put_heard(page: &mut Page, party: u32, asked: Asked, said: Said)
    ensures { PutsOn page (heard party asked (word_of said)) }
{
    match said {
        Said::Nothing => (),
        Said::Yes => put_answer(page, party, asked, b"yes"),
        Said::No => put_answer(page, party, asked, b"no"),
    }
}

// What is printed for the line of this number, by which a party that had been asked this was moved or called.
#[tactic(auto, unfolding(crate::specs::Lines::reply_line))]
pub fn put_reply(
    page: &mut Page,
    line: usize,
    party: u32,
    asked: Asked,
    reply: Result<Said, Refusal>,
)
    ensures { PutsOn page (reply_line line party asked (reply_is reply)) }
{
    match reply {
        Ok(said) => put_heard(page, party, asked, said),
        Err(why) => put_refused(page, line, why),
    }
}

// A word, a number and LF.
#[tactic(auto, using(page::proofs::Laws::put_put), unfolding(crate::specs::Lines::number_line))]
fn put_numbered(page: &mut Page, word: &[u8], n: u64)
    ensures { PutsOn page (number_line word.now n) }
{
    page.put(word);
    page.put_number(n);
    page.put(b"\n");
}

// bad= and a line's number
pub fn put_bad(page: &mut Page, line: usize)
    ensures { PutsOn page (bad_line line) }
{
    put_numbered(page, b"bad=", line as u64);
}

// key= and a key
fn put_key(page: &mut Page, key: u32)
    ensures { PutsOn page (key_line key) }
{
    put_numbered(page, b"key=", u64::from(key));
}

// One line for each key.
#[tactic(auto, using(crate::proofs::Laws::keys_nothing, crate::proofs::Laws::keys_more))]
pub fn put_keys(page: &mut Page, keys: &[u32])
    ensures { PutsOn page (key_lines keys.now) }
{
    for &key in keys {
        put_key(page, key);
    }
}

// moves=, won=, lost= and taken=
#[tactic(auto, using(page::proofs::Laws::put_put), unfolding(crate::specs::Lines::tally_lines))]
pub fn put_tallies(page: &mut Page, tallies: Tallies, taken: u16)
    ensures { PutsOn page (tally_lines tallies taken) }
{
    put_numbered(page, b"moves=", u64::from(tallies.moves));
    put_numbered(page, b"won=", u64::from(tallies.won));
    put_numbered(page, b"lost=", u64::from(tallies.lost));
    put_numbered(page, b"taken=", u64::from(taken));
}
