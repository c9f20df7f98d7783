// Numbers in bytes, low byte first, and rows of what stands in bytes, one behind another.
ghost use Rattle.std.specs.Prelude.{◌≡◌, List, ℕ, ◌+◌, ◌*◌, ◌≤◌, length};
ghost use Rattle.page.specs.Page.{PutsOn};
ghost use Rattle.probe_layout.specs.Bytes.{byte_at, two_at, four_at, each, low, one_by_one};

use page::Page;

// What stands in bytes: how many it has, how it is read from a place on, and how it is put on a page.
// Past the end every byte reads as 0. No question reaches a mebibyte, and no place below one wraps.
pub trait InBytes: Copy {
    ghost WIDTH: { ℕ };

    const WIDTH: usize;

    ghost read_at: { List ℕ → ℕ → Self };

    ghost bytes_of: { Self → List ℕ };

    fn read(bytes: &[u8], at: usize) -> Self
        requires { at + WIDTH ≤ 1048576 }
        ensures { result ≡ read_at bytes.now at };

    fn put_on(&self, page: &mut Page)
        ensures { PutsOn page (bytes_of self.now) };
}

impl InBytes for u8 {
    ghost WIDTH = { 1 };

    const WIDTH: usize = 1;

    ghost read_at = { byte_at };

    ghost bytes_of = { low 1 };

    fn read(bytes: &[u8], at: usize) -> u8 {
        bytes.get(at).copied().unwrap_or(0)
    }

    #[tactic(auto, using(crate::proofs::Laws::one_byte))]
    fn put_on(&self, page: &mut Page) {
        page.put_byte(*self);
    }
}

impl InBytes for u16 {
    ghost WIDTH = { 2 };

    const WIDTH: usize = 2;

    ghost read_at = { two_at };

    ghost bytes_of = { low 2 };

    fn read(bytes: &[u8], at: usize) -> u16 {
        u16::from_le_bytes([u8::read(bytes, at), u8::read(bytes, at + 1)])
    }

    #[tactic(auto, using(crate::proofs::Laws::two_bytes))]
    fn put_on(&self, page: &mut Page) {
        page.put(&self.to_le_bytes());
    }
}

impl InBytes for u32 {
    ghost WIDTH = { 4 };

    const WIDTH: usize = 4;

    ghost read_at = { four_at };

    ghost bytes_of = { low 4 };

    fn read(bytes: &[u8], at: usize) -> u32 {
        u32::from_le_bytes([
            u8::read(bytes, at),
            u8::read(bytes, at + 1),
            u8::read(bytes, at + 2),
            u8::read(bytes, at + 3),
        ])
    }

    #[tactic(auto, using(crate::proofs::Laws::four_bytes))]
    fn put_on(&self, page: &mut Page) {
        page.put(&self.to_le_bytes());
    }
}

// Reads a row from a place on, each entry behind the one before.
#[tactic(auto, using(crate::proofs::Laws::read_none, crate::proofs::Laws::read_one, crate::proofs::Laws::read_all))]
pub(crate) fn read_all<T: InBytes>(bytes: &[u8], from: usize, row: &mut [T])
    requires { from + T.WIDTH * length row.old ≤ 1048576 }
    ensures { row.new ≡ each (T.read_at bytes.now) T.WIDTH (length row.old) from }
{
    let mut at = from;
    for entry in row.iter_mut() {
        *entry = T::read(bytes, at);
        at += T::WIDTH;
    }
}

// The bytes of a row, each entry's behind those of the one before.
#[tactic(auto, using(crate::proofs::Laws::row_nothing, crate::proofs::Laws::row_more))]
pub fn put_all<T: InBytes>(page: &mut Page, row: &[T])
    ensures { PutsOn page (one_by_one T.bytes_of row.now) }
{
    for entry in row {
        entry.put_on(page);
    }
}
