// Total reads and writes of one lent column: past the end a read gives 0 and a write does nothing.
#![tactic(auto)]

ghost use Rattle.std.specs.Prelude.{◌≡◌, length, get_or, set, replicate};
ghost use Rattle.std.proofs.Common.{rules};

// What a column holds at each row: numbers of one width, which are copied as they are.
pub trait Entry: Copy {
    ghost ZERO: { Self };

    // What an unused row holds, and what is read past the end.
    const ZERO: Self;

    // A copy cannot fail, and is the number itself.
    ghost copies: { (number : Self) → Self.is_infallible number };

    ghost exactly: { (number copy : Self) → Self.is_clone number copy → copy ≡ number };
}

impl Entry for u8 {
    ghost ZERO = { 0 };

    const ZERO: u8 = 0;

    ghost copies = { Prim.search rules };

    ghost exactly = { Prim.search rules };
}

impl Entry for u16 {
    ghost ZERO = { 0 };

    const ZERO: u16 = 0;

    ghost copies = { Prim.search rules };

    ghost exactly = { Prim.search rules };
}

impl Entry for u32 {
    ghost ZERO = { 0 };

    const ZERO: u32 = 0;

    ghost copies = { Prim.search rules };

    ghost exactly = { Prim.search rules };
}

// What stands at a row of a column.
pub fn read<T: Entry>(column: &[T], row: u16) -> T
    ensures { result ≡ get_or column.now row T.ZERO }
{
    column.get(usize::from(row)).copied().unwrap_or(T::ZERO)
}

// Puts a value at a row of a column.
pub fn write<T: Entry>(column: &mut [T], row: u16, value: T)
    ensures { column.new ≡ set column.old row value }
{
    let i = usize::from(row);
    if i < column.len() {
        column[i] = value;
    }
}

// Sets every row of a column to 0.
pub fn clear<T: Entry>(column: &mut [T])
    ensures { column.new ≡ replicate (length column.old) T.ZERO }
{
    column.fill(T::ZERO);
}
