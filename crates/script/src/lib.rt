// The lines of a schedule: one line at a place, the head, and the first line that breaks the rules.
// Nothing here knows what a list is.
#![tactic(auto)]

ghost use Rattle.std.specs.Prelude.{◌≡◌, ◌<◌};
ghost use Rattle.script.specs.Lines.{verb_at, call_line, number_line, step_line, end_line, line_at, ends_body, next_of};
ghost use Rattle.script.specs.Head.{parties_line, rows_of, nodes_line, order_line, first_lost, head_of};
ghost use Rattle.script.specs.Body.{most_lines, last_bad, bad_from, first_bad};

use calls::Call;
use text::{LOST, Reading};

// A line `call=`: the party, the call's code, the field's bytes as they stand, and the place of the next line.
// A line that was read has the code of a call; `list_play::play_line` takes any other too, and has 6 for it.
#[derive(Clone, Copy)]
pub struct CallLine {
    pub party: u32,
    pub code: u32,
    pub field: [u8; 4],
    pub next: usize,
}

// A line behind the head. Every kind but the last ends with the place of the next line.
#[derive(Clone, Copy)]
pub enum Line {
    Call(CallLine),
    // The party.
    Step(u32, usize),
    // The number that it gives.
    End(u32, usize),
    // Any other bytes, or none.
    Bad,
}

// The first three lines: what they set, the place behind them, and the number of the first that breaks the rules.
// `order` stays a code, the one that `list_play::play_line` takes.
#[derive(Clone, Copy)]
pub struct Head {
    pub parties: u32,
    pub nodes: u32,
    pub order: u32,
    pub next: usize,
    pub bad: Option<usize>,
}

// The call that is named here, with a space on both sides.
#[tactic(auto, unfolding(crate::specs::Lines::verb_at))]
fn verb_at(text: &[u8], at: usize) -> Reading<Call>
    ensures { result ≡ verb_at text.now at }
{
    let add = text::word(text, at, b" add ");
    let remove = text::word(text, at, b" remove ");
    if add != LOST {
        Reading {
            value: Call::Add,
            next: add,
        }
    } else if remove != LOST {
        Reading {
            value: Call::Remove,
            next: remove,
        }
    } else {
        Reading {
            value: Call::Contains,
            next: text::word(text, at, b" contains "),
        }
    }
}

// call=P add HHHHHHHH
#[tactic(auto, unfolding(crate::specs::Lines::call_line))]
fn call_line(text: &[u8], at: usize) -> CallLine
    ensures { result ≡ call_line text.now at }
{
    let n = text::read_number(text, text::word(text, at, b"call="));
    let v = verb_at(text, n.next);
    let f = text::read_field(text, v.next);
    let field = f.value;
    let next = text::only(n.value <= 99, text::word(text, f.next, b"\n"));
    CallLine {
        party: n.value,
        code: u32::from(v.value.code()),
        field,
        next,
    }
}

// A name, a number and LF. (Inlined: with the name known a line is read in three fifths of the time.)
#[inline(always)]
fn number_line(text: &[u8], at: usize, name: &[u8]) -> Reading<u32>
    ensures { result ≡ number_line text.now at name.now }
{
    let n = text::read_number(text, text::word(text, at, name));
    Reading {
        next: text::word(text, n.next, b"\n"),
        ..n
    }
}

// step=P
#[tactic(auto, unfolding(crate::specs::Lines::step_line))]
fn step_line(text: &[u8], at: usize) -> Reading<u32>
    ensures { result ≡ step_line text.now at }
{
    let n = number_line(text, at, b"step=");
    Reading {
        next: text::only(n.value <= 99, n.next),
        ..n
    }
}

// end= and a number
#[tactic(auto, unfolding(crate::specs::Lines::end_line))]
fn end_line(text: &[u8], at: usize) -> Reading<u32>
    ensures { result ≡ end_line text.now at }
{
    number_line(text, at, b"end=")
}

// The line that stands at a place behind the head.
#[tactic(auto, unfolding(crate::specs::Lines::line_at))]
pub fn line_at(text: &[u8], at: usize) -> Line
    ensures { result ≡ line_at text.now at }
{
    let call = call_line(text, at);
    if call.next != LOST {
        return Line::Call(call);
    }
    let step = step_line(text, at);
    if step.next != LOST {
        return Line::Step(step.value, step.next);
    }
    let end = end_line(text, at);
    if end.next != LOST {
        return Line::End(end.value, end.next);
    }
    Line::Bad
}

// Whether no call and no step stands in the line.
pub fn ends_body(line: Line) -> bool
    ensures { result ≡ ends_body line }
{
    matches!(line, Line::End(..) | Line::Bad)
}

// The place behind a line; behind bytes that are no line, LOST.
pub fn next_of(line: Line) -> usize
    ensures { result ≡ next_of line }
{
    match line {
        Line::Call(CallLine { next, .. }) | Line::Step(_, next) | Line::End(_, next) => next,
        Line::Bad => LOST,
    }
}

// parties=, 1 to 16
#[tactic(auto, unfolding(crate::specs::Head::parties_line))]
fn parties_line(text: &[u8]) -> Reading<u32>
    ensures { result ≡ parties_line text.now }
{
    let n = number_line(text, 0, b"parties=");
    Reading {
        next: text::only(matches!(n.value, 1..=16), n.next),
        ..n
    }
}

// 0 stands for 64 rows.
#[tactic(auto, unfolding(crate::specs::Head::rows_of))]
fn rows_of(v: u32) -> u32
    ensures { result ≡ rows_of v }
{
    if v == 0 { 64 } else { v }
}

// nodes=, 0 or 4 to 4,096
#[tactic(auto, unfolding(crate::specs::Head::nodes_line))]
fn nodes_line(text: &[u8], at: usize) -> Reading<u32>
    ensures { result ≡ nodes_line text.now at }
{
    let n = number_line(text, at, b"nodes=");
    Reading {
        value: rows_of(n.value),
        next: text::only(matches!(n.value, 0 | 4..=4096), n.next),
    }
}

// order=, big or little
#[tactic(auto, unfolding(crate::specs::Head::order_line))]
fn order_line(text: &[u8], at: usize) -> Reading<u32>
    ensures { result ≡ order_line text.now at }
{
    let big = text::word(text, at, b"order=big\n");
    if big != LOST {
        Reading {
            value: 0,
            next: big,
        }
    } else {
        Reading {
            value: 1,
            next: text::word(text, at, b"order=little\n"),
        }
    }
}

// The number of the first of the three lines that is lost.
#[tactic(auto, unfolding(crate::specs::Head::first_lost))]
fn first_lost(parties: usize, nodes: usize, order: usize) -> Option<usize>
    ensures { result ≡ first_lost parties nodes order }
{
    [parties, nodes, order]
        .iter()
        .position(|&next| next == LOST)
        .map(|line| line + 1)
}

// The head of a text.
#[tactic(auto, unfolding(crate::specs::Head::head_of))]
pub fn read_head(text: &[u8]) -> Head
    ensures { result ≡ head_of text.now }
{
    let p = parties_line(text);
    let n = nodes_line(text, p.next);
    let o = order_line(text, n.next);
    let bad = first_lost(p.next, n.next, o.next);
    Head {
        parties: p.value,
        nodes: n.value,
        order: o.value,
        next: o.next,
        bad,
    }
}

// The bad line that a line without call and step leads to. An `end=` is bad itself if it gives another number
// than that of the lines before it, and leads to the next line if bytes follow it.
#[tactic(auto, unfolding(crate::specs::Body::last_bad, crate::specs::Body::end_bad))]
fn last_bad(seen: usize, line: Line, len: usize) -> Option<usize>
    requires { seen < 9223372036854775808 }
    ensures { result ≡ last_bad seen line len }
{
    match line {
        Line::End(count, next) if count as usize == seen => {
            if next == len { None } else { Some(seen + 5) }
        }
        _ => Some(seen + 4),
    }
}

// How many good lines a text can have at most.
#[tactic(auto, unfolding(crate::specs::Body::most_lines))]
pub fn most_lines(text: &[u8]) -> usize
    ensures { result ≡ most_lines text.now }
{
    text.len() / 6
}

// The number of the first bad line of a body that starts at a place.
#[tactic(auto, unfolding(crate::specs::Body::bad_from, crate::specs::Body::most_lines), using(crate::proofs::Laws::on))]
fn body_bad(text: &[u8], from: usize) -> Option<usize>
    ensures { result ≡ bad_from text.now 0 from (most_lines text.now) }
{
    let mut at = from;
    let most = most_lines(text);
    for seen in 0..most {
        let line = line_at(text, at);
        if ends_body(line) {
            return last_bad(seen, line, text.len());
        }
        at = next_of(line);
    }
    Some(most + 4)
}

// The number of the first bad line of a text with this head.
#[tactic(auto, unfolding(crate::specs::Body::first_bad))]
pub fn first_bad(text: &[u8], head: Head) -> Option<usize>
    ensures { result ≡ first_bad text.now head }
{
    head.bad.or_else(|| body_bad(text, head.next))
}
