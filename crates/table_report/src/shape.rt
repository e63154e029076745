// What is wrong with a row of wrong shape (12): the first that applies.
ghost use Rattle.std.specs.Prelude.{◌≡◌};
ghost use Rattle.table_report.specs.Faults.{tabs_of, unknown_kind, field_fault, row_fault, shape_fault};

use crate::Wrong;
use crate::cases::wrong_case;
use crate::texts::{all_fit, count};
use row_shapes::Table;
use row_shapes::aliases::name_of;

// How many tabs a row has.
fn tabs_of(table: Table) -> usize
    ensures { result ≡ tabs_of table }
{
    match table {
        Table::Aliases => 2,
        Table::Likely | Table::Parents => 1,
    }
}

// Is it an alias of no kind?
#[tactic(auto, unfolding(crate::specs::Faults::unknown_kind))]
fn unknown_kind(table: Table, row: &[u8]) -> bool
    ensures { result ≡ unknown_kind table row.now }
{
    table == Table::Aliases && name_of(row).kind.is_none()
}

// What is wrong with the bytes and fields of a row that has its tabs.
#[tactic(auto, unfolding(crate::specs::Faults::field_fault))]
fn field_fault(table: Table, row: &[u8]) -> Wrong
    ensures { result ≡ field_fault table row.now }
{
    if !all_fit(row) {
        Wrong::Byte
    } else if unknown_kind(table, row) {
        Wrong::Kind
    } else if wrong_case(table, row) {
        Wrong::Case
    } else {
        Wrong::Field
    }
}

// What is wrong with a row that has its 0A.
fn row_fault(table: Table, row: &[u8]) -> Wrong
    ensures { result ≡ row_fault table row.now }
{
    if row.is_empty() {
        return Wrong::Empty;
    }
    let last = row.len() - 1;
    if row[last] == b'\r' {
        return Wrong::Return;
    }
    let tabs = count(row, b'\t');
    let wanted = tabs_of(table);
    if tabs == 0 {
        Wrong::NoTab
    } else if tabs < wanted {
        Wrong::FewTabs
    } else if wanted < tabs {
        Wrong::ManyTabs
    } else {
        field_fault(table, row)
    }
}

// What is wrong with the row at the front of the rest of a table.
pub(crate) fn shape_fault(table: Table, rest: &[u8]) -> Wrong
    ensures { result ≡ shape_fault table rest.now }
{
    let end = byte_string::end_of(rest, b'\n', 0);
    if rest.len() <= end {
        return Wrong::NoEnd;
    }
    row_fault(table, &rest[..end])
}
