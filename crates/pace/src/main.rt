// The pace program: replays one schedule many times, so that a replay can be timed, and writes the output of the last.
#![tactic(auto)]

use list_replay::replay;
use std::io;
use streams::{front, read_full, room};

// How often the schedule is replayed.
const ROUNDS: u32 = 200;

// Replays the text again and again into the same buffer, and answers where the last output ends.
fn replays(text: &[u8], out: &mut [u8]) -> usize {
    let mut end = 0;
    for _ in 0..ROUNDS {
        end = replay(text, out);
    }
    end
}

fn main(rt: HostRuntime) -> io::Result<()> {
    // One byte more than a text may have, as in the schedule program.
    let mut text = room::<65537>();
    // Room for the output of every text.
    let mut out = room::<786432>();
    let n = read_full(&mut rt.stdin(), &mut text)?;
    let end = replays(front(&text, n), &mut out);
    rt.write_all(front(&out, end))
}
