// Reading at a place of a text: words, decimal numbers, fields of eight hex digits.
// A reading that fails goes to LOST, where every later one fails too.
#![tactic(auto)]

ghost use Rattle.std.specs.Prelude.{◌≡◌, ◌<◌, SomeIff};
ghost use Rattle.text.specs.Reading.{
  byte_at,
  place_after,
  word as Reading·word,
  only as Reading·only,
  digit_of,
  first_digit,
  next_digit,
  number_at,
  hex_of,
  pair_at,
  field_at,
};

// A place past the end of every text. It stays where an Option could stand: `read_field` and `read_head` promise the
// values of a lost reading too, and a reading goes on from a lost place, so that a line is one chain without a branch.
pub const LOST: usize = 18446744073709551615;

// What was read at a place, and the place behind it.
#[derive(Clone, Copy)]
pub struct Reading<T> {
    pub value: T,
    pub next: usize,
}

// The byte at a place; past the end 0, which stands in no line.
fn byte_at(text: &[u8], at: usize) -> u8
    ensures { result ≡ byte_at text.now at }
{
    text.get(at).copied().unwrap_or(0)
}

// The place behind a byte.
#[tactic(auto, unfolding(crate::specs::Reading::place_after))]
fn place_after(text: &[u8], at: usize) -> usize
    ensures { result ≡ place_after text.now at }
{
    if at < text.len() { at + 1 } else { LOST }
}

// The place where a condition holds, else LOST.
pub fn only(holds: bool, at: usize) -> usize
    ensures { result ≡ Reading·only holds at }
{
    if holds { at } else { LOST }
}

// The place behind a word that stands here, else LOST.
#[tactic(auto, using(crate::proofs::Laws::word_steps), unfolding(crate::specs::Reading::word))]
pub fn word(text: &[u8], at: usize, wanted: &[u8]) -> usize
    ensures { result ≡ Reading·word text.now at wanted.now }
{
    let mut here = at;
    for &byte in wanted {
        if byte_at(text, here) != byte {
            return LOST;
        }
        here = place_after(text, here);
    }
    here
}

// The decimal digit that a byte writes. (Apart from `hex`, since `digit_of` and `hex_of` are two definitions.)
#[tactic(auto, unfolding(crate::specs::Reading::digit_of))]
fn digit(byte: u8) -> Option<u32>
    ensures { SomeIff result (digit_of byte < 10) (digit_of byte) }
{
    char::from(byte).to_digit(10)
}

// The number that one digit makes; without a digit, 0 at LOST.
fn first_digit(text: &[u8], at: usize) -> Reading<u32>
    ensures { result ≡ first_digit text.now at }
{
    match digit(byte_at(text, at)) {
        Some(value) => Reading {
            value,
            next: place_after(text, at),
        },
        None => Reading {
            value: 0,
            next: LOST,
        },
    }
}

// One digit more where one stands. No digit goes behind a 0 in front, and none behind five:
// so no number has a leading zero, and none can wrap.
#[tactic(auto, unfolding(crate::specs::Reading::next_digit))]
fn next_digit(text: &[u8], n: Reading<u32>) -> Reading<u32>
    ensures { result ≡ next_digit text.now n }
{
    if n.value == 0 {
        return n;
    }
    match digit(byte_at(text, n.next)) {
        Some(d) if n.value < 10000 => Reading {
            value: n.value * 10 + d,
            next: place_after(text, n.next),
        },
        _ => n,
    }
}

// The decimal number that stands here. Of a longer one only five digits are read,
// and what follows is then no end of a line.
#[tactic(auto, using(crate::proofs::Laws::one_left))]
pub fn read_number(text: &[u8], at: usize) -> Reading<u32>
    ensures { result ≡ number_at text.now at }
{
    let mut n = first_digit(text, at);
    for _ in 0..4usize {
        n = next_digit(text, n);
    }
    n
}

// The hex digit of either case that a byte writes.
#[tactic(auto, unfolding(crate::specs::Reading::hex_of))]
fn hex(byte: u8) -> Option<u32>
    ensures { SomeIff result (hex_of byte < 16) (hex_of byte) }
{
    char::from(byte).to_digit(16)
}

// The byte of two hex digits.
#[tactic(auto, unfolding(crate::specs::Reading::pair_at))]
fn read_pair(text: &[u8], at: usize) -> Reading<u8>
    ensures { result ≡ pair_at text.now at }
{
    let second = place_after(text, at);
    match (hex(byte_at(text, at)), hex(byte_at(text, second))) {
        // Two hex digits make a number below 256.
        (Some(high), Some(low)) => Reading {
            value: (high * 16 + low) as u8,
            next: place_after(text, second),
        },
        _ => Reading {
            value: 0,
            next: LOST,
        },
    }
}

// The four bytes of eight hex digits; LOST behind any other text.
#[tactic(auto, unfolding(crate::specs::Reading::field_at))]
pub fn read_field(text: &[u8], at: usize) -> Reading<[u8; 4]>
    ensures { result ≡ field_at text.now at }
{
    let p = read_pair(text, at);
    let q = read_pair(text, p.next);
    let r = read_pair(text, q.next);
    let s = read_pair(text, r.next);
    Reading {
        value: [p.value, q.value, r.value, s.value],
        next: s.next,
    }
}
