// The probe program: reads a question on standard input and writes all that came of it to standard output.
#![tactic(auto)]

use probe_answer::probe;
use std::io;
use streams::{front, read_full, room};

fn main(rt: HostRuntime) -> io::Result<()> {
    // One byte more than a question may have, so that a longer one shows without being read to its end.
    let mut bytes = room::<65537>();
    // Room for the output of every question (`OutputFits` of `probe_answer`).
    let mut out = room::<54952>();
    let n = read_full(&mut rt.stdin(), &mut bytes)?;
    let end = probe(front(&bytes, n), &mut out);
    rt.write_all(front(&out, end))
}
