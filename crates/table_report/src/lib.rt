// Public, over lines. The line that the program `tables_check` prints of a verdict: `table`, its number, table and place,
// then the line of the file, the row as it stands there, and what is wrong.
#![tactic(auto)]

mod cases;
mod order;
mod shape;
mod texts;
mod words;

ghost use Rattle.std.specs.Prelude.{◌≡◌, ◌++◌, ◌+◌, ◌≤◌, length, drop};
ghost use Rattle.std.proofs.lemmas.List.Edits.{sets};
ghost use Rattle.byte_string.specs.Strings.{WritesWithin};
ghost use Rattle.tsv.specs.Fields.{decimal, field};
ghost use Rattle.tsv.specs.Shown.{shown};
ghost use Rattle.table_report.specs.Line.{names_row, line_of, row_for, meant_text, verdict_text, rest_text, line_text, told};

use meaning::put_meaning;
use order::order_fault;
use row_shapes::Table;
use shape::shape_fault;
use texts::count;
use tsv::{put, put_number, put_shown};
use words::put_told;

// What can be wrong with a row: of shape (12), then of order (13).
#[derive(Clone, Copy, PartialEq, Eq)]
pub enum Wrong {
    NoEnd,
    Empty,
    Return,
    NoTab,
    FewTabs,
    ManyTabs,
    Byte,
    Kind,
    Case,
    Field,
    SameKey,
    Order,
}

// Does the number name a row?
#[tactic(auto, unfolding(crate::specs::Line::names_row))]
fn names_row(number: u8) -> bool
    ensures { result ≡ names_row number }
{
    !matches!(number, 0 | 11)
}

// Writes the first four fields at the front of out, and gives the next place.
fn put_verdict(number: u8, place: usize, table: u8, out: &mut [u8]) -> usize
    requires { 90 ≤ length out.old }
    ensures { WritesWithin 90 out.old 0 (verdict_text number place table) result out.new }
{
    let p = put(b"table", b'\t', out, 0);
    let q = put_number(number as usize, b'\t', out, p);
    let r = put_number(table as usize, b'\t', out, q);
    put_number(place, b'\t', out, r)
}

// Writes the line of the file, counted from 1.
fn put_line(number: u8, x: &[u8], place: usize, out: &mut [u8], at: usize) -> usize
    requires { (place ≤ length x.now) × (at + 21 ≤ length out.old) }
    ensures { WritesWithin (at + 21) out.old at (field (decimal (line_of number x.now place)) 9) result out.new }
{
    if !names_row(number) {
        return put_number(0, b'\t', out, at);
    }
    let before = count(&x[..place], b'\n');
    put_number(before + 1, b'\t', out, at)
}

// Writes the row at the front of the rest of a table.
fn put_row(number: u8, rest: &[u8], out: &mut [u8], at: usize) -> usize
    requires { at + 1024 ≤ length out.old }
    ensures { WritesWithin (at + 1024) out.old at (field (shown 255 (row_for number rest.now)) 9) result out.new }
{
    if !names_row(number) {
        return put(b"-", b'\t', out, at);
    }
    let end = byte_string::end_of(rest, b'\n', 0);
    put_shown(&rest[..end], 255, b'\t', out, at)
}

// Writes what is wrong.
fn put_meant(number: u8, table: Table, x: &[u8], place: usize, out: &mut [u8], at: usize) -> usize
    requires { (place ≤ length x.now) × (at + 150 ≤ length out.old) }
    ensures { WritesWithin (at + 150) out.old at (field (meant_text number table x.now place) 10) result out.new }
{
    match number {
        12 => put_told(12, shape_fault(table, &x[place..]), out, at),
        13 => put_told(13, order_fault(table, x, place), out, at),
        _ => put_meaning(number, b'\n', out, at),
    }
}

// Writes the last three fields.
fn put_rest(number: u8, table: Table, x: &[u8], place: usize, out: &mut [u8], at: usize) -> usize
    requires { (place ≤ length x.now) × (at + 1195 ≤ length out.old) }
    ensures { WritesWithin (at + 1195) out.old at (rest_text number table x.now place) result out.new }
{
    let p = put_line(number, x, place, out, at);
    let q = put_row(number, &x[place..], out, p);
    put_meant(number, table, x, place, out, q)
}

// Writes the line of a verdict on the table x, whose number is named, at the front of out. A place beyond the table counts
// as its end.
fn write_of(number: u8, place: usize, named: u8, table: Table, x: &[u8], out: &mut [u8]) -> usize
    requires { 2048 ≤ length out.old }
    ensures { WritesWithin 1285 out.old 0 (line_text number place named table x.now) result out.new }
{
    let at = put_verdict(number, place, named, out);
    put_rest(number, table, x, place.min(x.len()), out, at)
}

// Writes the line of a verdict at the front of out and gives its length; 0 and nothing written where out has fewer than 2048
// bytes. The table is named by its number: 1 aliases, 2 likely, any other parents.
pub fn write(
    number: u8,
    place: usize,
    table: u8,
    aliases: &[u8],
    likely: &[u8],
    parents: &[u8],
    out: &mut [u8],
) -> usize
    ensures { let out' = out.exit.now in let out = out.entry.now in
        let text = told number place table aliases.now likely.now parents.now (length out) in
        (result ≡ length text) × (out' ≡ sets out 0 text) × (result ≤ length out) }
{
    if out.len() < 2048 {
        return 0;
    }
    match table {
        1 => write_of(number, place, table, Table::Aliases, aliases, out),
        2 => write_of(number, place, table, Table::Likely, likely, out),
        _ => write_of(number, place, table, Table::Parents, parents, out),
    }
}
