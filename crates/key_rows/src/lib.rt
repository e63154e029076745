// Public, over lines. The rows of the program `keys`: of each line what was asked, the number and the minimised form.
// The tables are tested once for a whole piece of lines.
#![tactic(auto)]

pub mod rows;

ghost use Rattle.std.specs.Prelude.{◌≡◌, Ok, IfOk, ◌+◌, ◌≤◌, length, take};
ghost use Rattle.byte_string.specs.Strings.{WritesWithin};
ghost use Rattle.operations.specs.Both.{TestedBoth};
ghost use Rattle.tsv.specs.Fields.{field, asked_of};
ghost use Rattle.key_rows.specs.Keys.{answer_text, kept_text, keys_given, keyed_is};

use crate::rows::KeyRows;
pub use lines::rows::Written;
use lines::rows::write_rows;
use operations::tables::tested;
use table::hints::{fill_hints, indexed, many};
use table_check::{Fault, check_likely};
use tsv::{put, put_asked, put_number};

// What is kept: the form, or `-`.
fn put_kept(number: u8, form: &[u8], len: usize, out: &mut [u8], at: usize) -> usize
    requires { (len ≤ 255) × (len ≤ length form.now) × (at + 256 ≤ length out.old) }
    ensures { let out' = out.exit.now in let out = out.entry.now in let form = form.entry.now in
        WritesWithin (at + 256) out at (field (kept_text number (take len form)) 10) result out' }
{
    if number == 0 {
        put(&form[..len], b'\n', out, at)
    } else {
        put(b"-", b'\n', out, at)
    }
}

// The row of an answer.
fn put_answer(line: &[u8], number: u8, form: &[u8], len: usize, out: &mut [u8], at: usize) -> usize
    requires { (length (asked_of number line.now) ≤ 255) × (len ≤ 255) × (len ≤ length form.now) × (at + 540 ≤ length out.old) }
    ensures { let out' = out.exit.now in let out = out.entry.now in let line = line.entry.now in let form = form.entry.now in
        WritesWithin (at + 540) out at (answer_text number line (kept_text number (take len form))) result out' }
{
    let p = put_asked(number, line, out, at);
    let q = put_number(number as usize, b'\t', out, p);
    put_kept(number, form, len, out, q)
}

// The rows over tables that passed the check: their hints are made once for all lines.
fn rows_tested(piece: &[u8], aliases: &[u8], likely: &[u8], out: &mut [u8]) -> Written
    requires { TestedBoth aliases.now likely.now }
    ensures given { let out' = out.exit.now in let aliases = aliases.entry.now in let likely = likely.entry.now in
        let piece = piece.entry.now in let out = out.entry.now in
        keyed_is (Ok result) out' ≡ keys_given aliases likely piece out }
    ensures in_piece { result.used ≤ length piece.now }
    ensures in_out { result.len ≤ length out.old }
{
    let mut a = many();
    fill_hints(aliases, &mut a);
    let mut l = many();
    fill_hints(likely, &mut l);
    let tables = tested(indexed(aliases, &a), indexed(likely, &l));
    write_rows(&KeyRows { tables }, piece, out)
}

// Tests the tables, then writes the rows of the lines of a piece at the front of out, as long as 540 bytes are free before
// each. A bad table gives its fault, and no rows.
pub fn rows_of(
    piece: &[u8],
    aliases: &[u8],
    likely: &[u8],
    out: &mut [u8],
) -> Result<Written, Fault>
    ensures given { let out' = out.exit.now in let aliases = aliases.entry.now in let likely = likely.entry.now in
        let piece = piece.entry.now in let out = out.entry.now in
        keyed_is result out' ≡ keys_given aliases likely piece out }
    ensures in_piece { IfOk result (λ w. w.used ≤ length piece.now) }
    ensures in_out { IfOk result (λ w. w.len ≤ length out.old) }
{
    check_likely(aliases, likely)?;
    Ok(rows_tested(piece, aliases, likely, out))
}
