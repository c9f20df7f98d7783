// Rows: the four lent columns, the end rows, the kinds, the order, and the writes that a call or a move makes.
#![tactic(auto)]

ghost use Rattle.std.specs.Prelude.{◌≡◌};
ghost use Rattle.list_rows.specs.Table.{
  table_of,
  table_held,
  SameColumns,
  kind_at,
  key_at,
  next_at,
  back_at,
  is_item,
  is_splice,
  link,
  with_row,
};
ghost use Rattle.list_rows.specs.Order.{end_rank, rank_at, below, below_key, equals_key};
ghost use Rattle.list_rows.specs.Writes.{written};

use columns::{read, write};

// The kinds of rows, as they stand in the column of kinds. They are numbers and no enum, since a lent column may hold
// any other byte too, which good form has to compare with them.
pub const UNUSED: u8 = 0;

pub const END: u8 = 1;

pub const ITEM: u8 = 2;

pub const SPLICE: u8 = 3;

// The four columns lent to be read. They may have any lengths; past its end a column reads as 0.
// Document 01 asks for four lent columns: so they are slices side by side, and rows are numbers.
#[derive(Clone, Copy)]
pub struct Columns<'a> {
    pub kind: &'a [u8],
    pub key: &'a [u32],
    pub next: &'a [u16],
    pub back: &'a [u16],
}

impl Columns<'_> {
    pub fn kind_at(&self, row: u16) -> u8
        ensures { result ≡ kind_at (table_of self.now) row }
    {
        read(self.kind, row)
    }

    pub fn key_at(&self, row: u16) -> u32
        ensures { result ≡ key_at (table_of self.now) row }
    {
        read(self.key, row)
    }

    pub fn next_at(&self, row: u16) -> u16
        ensures { result ≡ next_at (table_of self.now) row }
    {
        read(self.next, row)
    }

    pub fn back_at(&self, row: u16) -> u16
        ensures { result ≡ back_at (table_of self.now) row }
    {
        read(self.back, row)
    }
}

// A row by its number.
#[derive(Clone, Copy, Debug, PartialEq, Eq)]
pub struct Row(pub u16);

impl Row {
    // The four end rows; the last stands for none as its own next.
    pub const HEAD: Row = Row(0);

    pub const HEAD_NXT: Row = Row(1);

    pub const TAIL: Row = Row(2);

    pub const TAIL_NXT: Row = Row(3);

    // Whether the row is an item, removed or not.
    pub fn is_item(self, columns: &Columns<'_>) -> bool
        ensures { result ≡ is_item (table_of columns.now) self.0 }
    {
        columns.kind_at(self.0) == ITEM
    }

    // Whether the row is a splice.
    pub fn is_splice(self, columns: &Columns<'_>) -> bool
        ensures { result ≡ is_splice (table_of columns.now) self.0 }
    {
        columns.kind_at(self.0) == SPLICE
    }

    // The rank of a row that is neither splice nor item: by its number alone.
    fn end_rank(self) -> u64
        ensures { result ≡ end_rank self.0 }
    {
        match self {
            Row::HEAD => 1,
            Row::HEAD_NXT => 2,
            Row::TAIL => 4294967299,
            _ => 4294967300,
        }
    }

    // Where the row stands in the order, as one number.
    #[tactic(auto, unfolding(crate::specs::Order::rank))]
    fn rank(self, columns: &Columns<'_>) -> u64
        ensures { result ≡ rank_at (table_of columns.now) self.0 }
    {
        match columns.kind_at(self.0) {
            SPLICE => 0,
            ITEM => 3 + u64::from(columns.key_at(self.0)),
            _ => self.end_rank(),
        }
    }

    // Whether the row stands before another.
    pub fn below(self, columns: &Columns<'_>, other: Row) -> bool
        ensures { result ≡ below (table_of columns.now) self.0 other.0 }
    {
        self.rank(columns) < other.rank(columns)
    }

    // Whether the row stands before every item with the key.
    pub fn below_key(self, columns: &Columns<'_>, wanted: u32) -> bool
        ensures { result ≡ below_key (table_of columns.now) self.0 wanted }
    {
        self.rank(columns) < 3 + u64::from(wanted)
    }

    // Whether the row is an item with the key.
    pub fn equals_key(self, columns: &Columns<'_>, wanted: u32) -> bool
        ensures { result ≡ equals_key (table_of columns.now) self.0 wanted }
    {
        self.rank(columns) == 3 + u64::from(wanted)
    }
}

// What is written in the table.
#[derive(Clone, Copy)]
pub enum Write {
    // no row
    Untouched,
    // the next of a row: the row, its next
    Link(u16, u16),
    // a row as a splice: the row, its next, its back
    Splice(u16, u16, u16),
    // a row as an item: the row, its key
    Item(u16, u32),
}

// The four columns lent to be changed.
#[derive(Drop)]
pub struct ColumnsMut<'a> {
    pub kind: &'a mut [u8],
    pub key: &'a mut [u32],
    pub next: &'a mut [u16],
    pub back: &'a mut [u16],
}

impl ColumnsMut<'_> {
    // The same columns, lent on to be read.
    pub fn view(&self) -> Columns<'_>
        ensures { table_of result ≡ table_held self.now }
    {
        Columns {
            kind: self.kind,
            key: self.key,
            next: self.next,
            back: self.back,
        }
    }

    // Writes all four entries of a row.
    fn write_row(&mut self, row: u16, kind: u8, key: u32, next: u16, back: u16)
        ensures written { table_held self.new ≡ with_row (table_held self.old) row kind key next back }
        ensures lent { SameColumns self.old self.new }
    {
        write(self.kind, row, kind);
        write(self.key, row, key);
        write(self.next, row, next);
        write(self.back, row, back);
    }

    // Makes a write. Nothing is tested or refused: past the end of a column nothing is written.
    pub fn apply(&mut self, what: Write)
        ensures written { table_held self.new ≡ written what (table_held self.old) }
        ensures lent { SameColumns self.old self.new }
    {
        match what {
            Write::Untouched => {}
            Write::Link(row, to) => write(self.next, row, to),
            Write::Splice(row, to, from) => self.write_row(row, SPLICE, 0, to, from),
            Write::Item(row, wanted) => self.write_row(row, ITEM, wanted, 0, 0),
        }
    }
}
