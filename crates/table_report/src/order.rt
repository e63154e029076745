// What is wrong with a row that is not above the one before (13).
ghost use Rattle.std.specs.Prelude.{◌≡◌, ◌≤◌, length};
ghost use Rattle.standard.specs.Tag.{same};
ghost use Rattle.byte_string.specs.Strings.{end_of};
ghost use Rattle.row_shapes.specs.Rows.{second_tab, key_end};
ghost use Rattle.table_report.specs.Faults.{key_of, order_fault};

use crate::Wrong;
use crate::texts::line_start;
use byte_string::end_of;
use row_shapes::Table;

// Where the second tab stands, or the line ends.
fn second_tab(line: &[u8]) -> usize
    ensures { let line = line.entry.now in (result ≡ second_tab line (end_of 9 line 0)) × (result ≤ length line) }
{
    let a = end_of(line, b'\t', 0);
    if a < line.len() {
        end_of(line, b'\t', a + 1)
    } else {
        a
    }
}

// Where the key of a row ends.
#[tactic(auto, unfolding(row_shapes::specs::Rows::key_end))]
fn key_end(table: Table, line: &[u8]) -> usize
    ensures { let line = line.entry.now in (result ≡ key_end table line) × (result ≤ length line) }
{
    match table {
        Table::Aliases => second_tab(line),
        Table::Likely | Table::Parents => end_of(line, b'\t', 0),
    }
}

// Have two rows the same key?
fn same_key(table: Table, a: &[u8], b: &[u8]) -> bool
    ensures { result ≡ same (key_of table a.now) (key_of table b.now) }
{
    let m = key_end(table, a);
    let n = key_end(table, b);
    byte_string::same(&a[..m], &b[..n])
}

// What is wrong with the order of the row that starts at the place, behind the 0A of the row before.
pub(crate) fn order_fault(table: Table, x: &[u8], place: usize) -> Wrong
    requires { place ≤ length x.now }
    ensures { result ≡ order_fault table x.now place }
{
    let e = place.saturating_sub(1);
    let s = line_start(x, e);
    let rest = &x[place..];
    let end = end_of(rest, b'\n', 0);
    if same_key(table, &x[s..e], &rest[..end]) {
        Wrong::SameKey
    } else {
        Wrong::Order
    }
}
