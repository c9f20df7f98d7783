// What set-up lays down in the columns: an empty list.
#![tactic(auto)]

ghost use Rattle.std.specs.Prelude.{◌≡◌, length, replicate};
ghost use Rattle.list_rows.specs.Table.{table_held, SameColumns};
ghost use Rattle.list_fresh.specs.Fresh.{laid, emptied};

use columns::{Entry, clear, write};
use list_rows::{ColumnsMut, END, Row};

// A column with four entries for the end rows, in their order, and zeros behind them.
fn lay_ends<T: Entry>(column: &mut [T], head: T, head_nxt: T, tail: T, tail_nxt: T)
    ensures { column.new ≡ laid (replicate (length column.old) T.ZERO) head head_nxt tail tail_nxt }
{
    clear(column);
    write(column, Row::HEAD.0, head);
    write(column, Row::HEAD_NXT.0, head_nxt);
    write(column, Row::TAIL.0, tail);
    write(column, Row::TAIL_NXT.0, tail_nxt);
}

// Makes the columns those of an empty list, whatever their lengths. Refuses nothing.
pub fn fresh_table(columns: &mut ColumnsMut<'_>)
    ensures emptied { table_held columns.new ≡ emptied (table_held columns.old) }
    ensures lent { SameColumns columns.old columns.new }
{
    lay_ends(columns.kind, END, END, END, END);
    clear(columns.key);
    // The end rows follow each other; the last one's own number stands for none.
    lay_ends(
        columns.next,
        Row::HEAD_NXT.0,
        Row::TAIL.0,
        Row::TAIL_NXT.0,
        Row::TAIL_NXT.0,
    );
    clear(columns.back);
}
