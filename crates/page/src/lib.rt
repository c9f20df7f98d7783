// Writing bytes and decimal numbers one after another into a lent buffer.
// A full buffer takes no more, and nothing past it is touched.
#![tactic(auto)]

ghost use Rattle.std.specs.Prelude.{◌≡◌, [], ◌∷◌, take};
ghost use Rattle.page.specs.Page.{StartsIn, PutsOn, decimal};

// A lent buffer, and the place of the next byte.
// (It is no `fmt::Write`: `write!` promises its text only where it answers Ok, and may answer Err on any page.)
#[derive(Drop)]
pub struct Page<'a> {
    pub out: &'a mut [u8],
    pub at: usize,
}

impl<'a> Page<'a> {
    // A page with nothing on it: its first byte goes to the front of the buffer.
    pub fn new(out: &'a mut [u8]) -> Page<'a>
        ensures { StartsIn out.entry result }
    {
        Page { out, at: 0 }
    }

    // One byte, if there is room.
    #[tactic(auto, unfolding(crate::specs::Page::put))]
    pub fn put_byte(&mut self, byte: u8)
        ensures { PutsOn self (byte ∷ []) }
    {
        if self.at < self.out.len() {
            self.out[self.at] = byte;
            self.at += 1;
        }
    }

    // Some bytes, as far as there is room.
    #[tactic(auto, using(crate::proofs::Laws::put_nothing, crate::proofs::Laws::put_more))]
    pub fn put(&mut self, bytes: &[u8])
        ensures { PutsOn self bytes.now }
    {
        for &byte in bytes {
            self.put_byte(byte);
        }
    }

    // A number in decimal, as far as there is room: the digits before its last one, then that one.
    #[tactic(auto, using(crate::proofs::Laws::one_digit, crate::proofs::Laws::last_digit))]
    pub fn put_number(&mut self, n: u64)
        ensures { PutsOn self (decimal n) }
    {
        if 10 <= n {
            self.put_number(n / 10);
        }
        self.put_byte(48 + (n % 10) as u8);
    }

    // What the buffer holds before the place: all that was put, where the page began at the front.
    pub fn written(&self) -> &[u8]
        ensures { result.now ≡ take self.now.at self.now.out.now }
    {
        self.out.get(..self.at).unwrap_or(self.out)
    }
}
