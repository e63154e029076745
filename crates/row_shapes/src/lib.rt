// Inner. The rows of the three tables: their shape (12) and their order (13).
#![tactic(auto)]

pub mod aliases;
pub mod lsr;
mod pairs;
mod subtags;

ghost use Rattle.std.specs.Prelude.{◌≡◌};
ghost use Rattle.std.proofs.Math.Option.{none};
ghost use Rattle.standard.specs.Table.{rows, rows_fault, shape_of};
ghost use Rattle.table.specs.Search.{below};
ghost use Rattle.row_shapes.specs.Rows.{LineIs, kind_is, fault_is};

use crate::aliases::alias_row;
use crate::pairs::{Line, likely_row, parent_row};

// The three tables.
#[derive(Clone, Copy, PartialEq, Eq)]
pub enum Table {
    Aliases,
    Likely,
    Parents,
}

// The row of the table at the front of s.
fn row_at(s: &[u8], table: Table) -> Option<Line>
    ensures { LineIs table s.now result }
{
    match table {
        Table::Aliases => alias_row(s),
        Table::Likely => likely_row(s),
        Table::Parents => parent_row(s),
    }
}

// Does a come before b?
fn rises(a: &[u8], b: &[u8]) -> bool
    ensures { result ≡ below a.now b.now }
{
    byte_string::compare(a, b).is_lt()
}

// What is wrong with the rows, and where the first wrong one starts.
#[derive(Clone, Copy, PartialEq, Eq)]
pub enum RowFault {
    Shape(usize),
    Order(usize),
}

// The first row of wrong shape, or not above the one before.
pub fn check_rows(t: &[u8], table: Table) -> Result<(), RowFault>
    ensures { fault_is result ≡ rows_fault (shape_of (kind_is table)) none 0 (rows t.now) }
{
    let mut i = 0;
    let mut before = &t[..0];
    // a step is as long as its row
    while i < t.len() {
        let Some(row) = row_at(&t[i..], table) else {
            return Err(RowFault::Shape(i));
        };
        let end = i + row.key;
        let key = &t[i..end];
        if !rises(before, key) {
            return Err(RowFault::Order(i));
        }
        before = key;
        i += row.end + 1;
    }
    Ok(())
}
