// Public, over lines. The rows of the program `refused`: of each usage line that the bill counts as refused its number, the
// member, number and place of the refusal, the identifier and the meaning. The tables are tested once for a whole piece of
// lines.
#![tactic(auto)]

mod fault;
mod member;
mod row;

ghost use Rattle.std.specs.Prelude.{◌≡◌, Ok, IfOk, ◌+◌, ◌≤◌, ◌⊎◌, length};
ghost use Rattle.byte_string.specs.Strings.{WritesWithin};
ghost use Rattle.operations.specs.Both.{TestedBoth};
ghost use Rattle.refused_rows.specs.Rows.{kept_row, line_row, refused_given, rowed_is};

use byte_string::end_of;
use fault::check_line;
use lines::next_line;
use operations::complete::form_buffer;
use operations::tables::{TestedTables, tested};
use row::put_fault;
use std::num::wrapping_add_usize;
use table::hints::{fill_hints, indexed, many};
use table_check::{Fault, check_likely};

// How many bytes of the piece were answered, the number of the line behind them, and the length of the rows.
#[derive(Clone, Copy)]
pub struct Rowed {
    pub used: usize,
    pub next: usize,
    pub len: usize,
}

// The row of a line of at most 260 bytes. What form holds before and after is of no account.
fn put_kept(
    n: usize,
    line: &[u8],
    tables: TestedTables,
    form: &mut [u8],
    out: &mut [u8],
    at: usize,
) -> usize
    requires { (length form.old ≡ 256) × (length line.now ≤ 260) × (at + 2400 ≤ length out.old) }
    ensures { let out' = out.exit.now in let out = out.entry.now in let tables = tables.entry in
        WritesWithin (at + 2400) out at (kept_row tables.aliases.rows.now tables.likely.rows.now n line.entry.now) result out' }
{
    put_fault(check_line(line, tables, form), n, line, out, at)
}

// Writes the row of a line at the place at, where it is refused, and gives the next place. Only its first 260 bytes are
// looked at.
fn put_row(
    n: usize,
    line: &[u8],
    tables: TestedTables,
    form: &mut [u8],
    out: &mut [u8],
    at: usize,
) -> usize
    requires { (length form.old ≡ 256) × (at + 2400 ≤ length out.old) }
    ensures { let out' = out.exit.now in let out = out.entry.now in let tables = tables.entry in
        WritesWithin (at + 2400) out at (line_row tables.aliases.rows.now tables.likely.rows.now n line.entry.now) result out' }
{
    put_kept(n, &line[..line.len().min(260)], tables, form, out, at)
}

// The rows over tables that passed the check, of a piece whose first line has the number `first`.
pub fn rows_hinted(
    first: usize,
    piece: &[u8],
    tables: TestedTables,
    form: &mut [u8],
    out: &mut [u8],
) -> Rowed
    requires { length form.old ≡ 256 }
    ensures given { let out' = out.exit.now in let tables = tables.entry in
        rowed_is first (Ok result) out' ≡ refused_given tables.aliases.rows.now tables.likely.rows.now first piece.entry.now out.entry.now }
    ensures in_piece { result.used ≤ length piece.now }
    ensures in_out { result.len ≤ length out.old }
{
    let mut at = 0;
    let mut next = first;
    let mut len = 0;
    // a step is as long as its line
    while at < piece.len() {
        if out.len() - len < 2400 {
            return Rowed {
                used: at,
                next,
                len,
            };
        }
        let e = end_of(piece, b'\n', at);
        len = put_row(next, &piece[at..e], tables, form, out, len);
        next = wrapping_add_usize(next, 1);
        at = next_line(piece.len(), e);
    }
    Rowed {
        used: at,
        next,
        len,
    }
}

// The rows over tables that passed the check: their hints and the room for a form are made once for all lines.
fn rows_tested(first: usize, piece: &[u8], aliases: &[u8], likely: &[u8], out: &mut [u8]) -> Rowed
    requires { TestedBoth aliases.now likely.now }
    ensures given { let out' = out.exit.now in let aliases = aliases.entry.now in let likely = likely.entry.now in
        rowed_is first (Ok result) out' ≡ refused_given aliases likely first piece.entry.now out.entry.now }
    ensures in_piece { result.used ≤ length piece.now }
    ensures in_out { result.len ≤ length out.old }
{
    let mut a = many();
    fill_hints(aliases, &mut a);
    let mut l = many();
    fill_hints(likely, &mut l);
    let tables = tested(indexed(aliases, &a), indexed(likely, &l));
    rows_hinted(first, piece, tables, &mut form_buffer(), out)
}

// Tests the tables, then writes the rows of the refused lines of a piece, whose first line has the number `first`, at the
// front of out, as long as 2,400 bytes are free before each line. A bad table gives its fault, and no rows.
pub fn rows_of(
    first: usize,
    piece: &[u8],
    aliases: &[u8],
    likely: &[u8],
    out: &mut [u8],
) -> Result<Rowed, Fault>
    ensures given { let out' = out.exit.now in let aliases = aliases.entry.now in let likely = likely.entry.now in
        rowed_is first result out' ≡ refused_given aliases likely first piece.entry.now out.entry.now }
    ensures in_piece { IfOk result (λ r. r.used ≤ length piece.now) }
    ensures in_out { IfOk result (λ r. r.len ≤ length out.old) }
{
    check_likely(aliases, likely)?;
    Ok(rows_tested(first, piece, aliases, likely, out))
}
