// What the programs read into: rooms of zeros, a stream read until its room is full, the front of a room.
#![tactic(auto)]

ghost use Rattle.std.specs.Prelude.{◌≡◌, ◌<◌, length, take, IfOk};
ghost use Rattle.std.specs.Io.{ReadsAtMost};
ghost use Rattle.std.specs.Io.KnownBytes.{Consumes, IsAtEnd};
ghost use Rattle.streams.specs.Rooms.{zeros};

use std::io;
use std::io::Read;

// So many zeros. Their length has a clause of its own, so that no caller counts out a large array.
#[tactic(auto, unfolding(crate::specs::Rooms::zeros))]
pub fn room<const N: usize>() -> [u8; N]
    ensures long { length result ≡ N }
    ensures blank { result ≡ zeros N }
{
    [0; N]
}

// The first n bytes, or all of them where there are fewer.
pub fn front(bytes: &[u8], n: usize) -> &[u8]
    ensures { result.now ≡ take n bytes.now }
{
    bytes.get(..n).unwrap_or(bytes)
}

// Reads until the room is full or the input ends, and answers how many bytes came.
// Where the stream's bytes are known, these are its next ones, and fewer than fill the room are all that it had left.
// A stream of the host is not known: what comes, and whether a read fails, is the stream's to say.
pub fn read_full<R: Read>(input: &mut R, room: &mut [u8]) -> io::Result<usize>
    ensures read { ReadsAtMost result room.new }
    ensures kept { length room.new ≡ length room.old }
    ensures bytes { IfOk result (λ n. Consumes (R.remaining input.old) (R.remaining input.new) (take n room.new)) }
    ensures whole { IfOk result (λ n. n < length room.new → IsAtEnd (R.remaining input.new)) }
{
    // By hand: `read_exact` takes a short input for an error, and what copies a stream tells nothing of the room.
    let mut done = 0;
    while done < room.len() {
        let n = input.read(&mut room[done..])?;
        if n == 0 {
            break;
        }
        done += n;
    }
    Ok(done)
}
