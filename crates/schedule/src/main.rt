// The schedule program: reads a schedule on standard input and writes what came of it to standard output.
#![tactic(auto)]

use list_replay::replay;
use std::io;
use streams::{front, read_full, room};

// Three lines like those of `probe`: one function for both, given the entry point as a closure, would have to ask of
// its caller that the closure may be called.
fn main(rt: HostRuntime) -> io::Result<()> {
    // One byte more than a text may have, so that a longer one shows without being read to its end.
    let mut text = room::<65537>();
    // Room for the output of every text (`OutputFits` of `list_replay`).
    let mut out = room::<786432>();
    let n = read_full(&mut rt.stdin(), &mut text)?;
    let end = replay(front(&text, n), &mut out);
    rt.write_all(front(&out, end))
}
