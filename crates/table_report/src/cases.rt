// Whether a row would have the right shape in canonical case.
ghost use Rattle.std.specs.Prelude.{◌≡◌, ◌+◌, ◌≤◌, length};
ghost use Rattle.byte_string.specs.Strings.{Writes};
ghost use Rattle.table_report.specs.Cases.{first_in, first_of, by_length, capitals, next_count, recased, passes, wrong_case};

use byte_string::end_of;
use row_shapes::aliases::{AliasKind, name_of};
use row_shapes::{Table, check_rows};

// How many bytes of a field's first subtag are capitals, by the kind of alias.
fn first_in(kind: Option<AliasKind>) -> usize
    ensures { result ≡ first_in kind }
{
    match kind {
        Some(AliasKind::Script) => 1,
        Some(AliasKind::Region) => 2,
        _ => 0,
    }
}

// The same in a row.
#[tactic(auto, unfolding(crate::specs::Cases::first_of))]
fn first_of(table: Table, row: &[u8]) -> usize
    ensures { result ≡ first_of table row.now }
{
    match table {
        Table::Aliases => first_in(name_of(row).kind),
        Table::Likely | Table::Parents => 0,
    }
}

// A region of two bytes is all capitals, a script of four begins with one.
#[tactic(auto, unfolding(crate::specs::Cases::by_length))]
fn by_length(n: usize) -> usize
    ensures { result ≡ by_length n }
{
    match n {
        2 => 2,
        4 => 1,
        _ => 0,
    }
}

// How many bytes of the subtag at the front, which follows a `-`, are capitals.
fn capitals_of(rest: &[u8]) -> usize
    ensures { result ≡ capitals rest.now }
{
    by_length(end_of(rest, b'-', 0).min(end_of(rest, b'\t', 0)))
}

// How many capitals are to come after a byte.
#[tactic(auto, unfolding(crate::specs::Cases::next_count))]
fn next_count(first: usize, n: usize, b: u8, rest: &[u8]) -> usize
    ensures { result ≡ next_count first n b rest.now }
{
    match b {
        b'-' => capitals_of(rest),
        b'\t' => first,
        _ => n.saturating_sub(1),
    }
}

// Writes a row in canonical case at the front of out, and gives its length.
fn put_recased(first: usize, row: &[u8], out: &mut [u8]) -> usize
    requires { length row.now ≤ length out.old }
    ensures { Writes out.old 0 (recased first 0 row.now) result out.new }
{
    let mut n = 0;
    for (i, &b) in row.iter().enumerate() {
        out[i] = subtag::recase(subtag::lower(b), 0, n);
        n = next_count(first, n, b, &row[i + 1..]);
    }
    row.len()
}

// Has the row the right shape in canonical case? It is written into buf.
fn passes_in(table: Table, row: &[u8], buf: &mut [u8]) -> bool
    requires { length row.now + 1 ≤ length buf.old }
    ensures { result ≡ passes table row.now }
{
    let end = put_recased(first_of(table, row), row, buf);
    buf[end] = b'\n';
    check_rows(&buf[..=end], table).is_ok()
}

// Is a row of wrong shape so by its case alone? One of right shape has at most 80 bytes.
#[tactic(auto, unfolding(crate::specs::Cases::wrong_case))]
pub(crate) fn wrong_case(table: Table, row: &[u8]) -> bool
    ensures { result ≡ wrong_case table row.now }
{
    // room for a row of right shape and its 0A
    let mut buf = [0; 81];
    row.len() <= 80 && passes_in(table, row, &mut buf)
}
