// Public, over lines. The rows that the program `inspect` prints: an identifier as asked, what reading reports of it and
// what that means; over tables also why it would be no key.
#![tactic(auto)]

pub mod rows;

ghost use Rattle.std.specs.Prelude.{◌≡◌, [], ◌++◌, ◌+◌, ◌≤◌, length};
ghost use Rattle.std.proofs.lemmas.List.Edits.{sets};
ghost use Rattle.byte_string.specs.Strings.{WritesWithin};
ghost use Rattle.lines.specs.Pieces.{piece_text, piece_used};
ghost use Rattle.reader.specs.Words.{word_is, report_is};
ghost use Rattle.tsv.specs.Fields.{decimal, field};
ghost use Rattle.inspect_rows.specs.Rows.{told_is, dashed, three_text, fields_text, key_text, meant_text, row_of};

use crate::rows::ReadRows;
pub use lines::rows::Written;
use lines::rows::write_rows;
use meaning::put_meaning;
use reader::report::{Report, Word};
use reader::{Refusal, fault_of};
use tsv::{put, put_asked, put_number};

// Writes a subtag that may be absent and the mark that ends it at the place at, and gives the next place.
fn put_subtag(w: Word, mark: u8, out: &mut [u8], at: usize) -> usize
    requires { at + 9 ≤ length out.old }
    ensures { WritesWithin (at + 9) out.old at (field (dashed (word_is w)) mark) result out.new }
{
    if w.len == 0 {
        return put(b"-", mark, out, at);
    }
    put(&w.bytes[..w.len], mark, out, at)
}

// Writes two numbers, the second with the given mark, at the place at, and gives the next place.
fn put_two(first: usize, second: usize, mark: u8, out: &mut [u8], at: usize) -> usize
    requires { at + 42 ≤ length out.old }
    ensures { let out' = out.exit.now in let out = out.entry.now in
        WritesWithin (at + 42) out at (field (decimal first) 9 ++ field (decimal second) mark) result out' }
{
    let p = put_number(first, b'\t', out, at);
    put_number(second, mark, out, p)
}

// The same of language, script and region.
fn put_three(language: Word, script: Word, region: Word, out: &mut [u8], at: usize) -> usize
    requires { at + 27 ≤ length out.old }
    ensures { let out' = out.exit.now in let out = out.entry.now in
        WritesWithin (at + 27) out at (three_text (word_is language) (word_is script) (word_is region)) result out' }
{
    let p = put_subtag(language, b'\t', out, at);
    let q = put_subtag(script, b'\t', out, p);
    put_subtag(region, b'\t', out, q)
}

// No subtag.
#[tactic(auto, unfolding(reader::specs::Words::word_is))]
fn no_word() -> Word
    ensures { word_is result ≡ [] }
{
    Word {
        bytes: [0; 8],
        len: 0,
    }
}

// What is told of an identifier: number and place, 0 where it is read, and the report, of nothing where it is not.
#[derive(Clone, Copy)]
pub struct Told {
    pub number: u8,
    pub place: usize,
    pub report: Report,
}

#[tactic(auto, unfolding(crate::specs::Rows::told_is, reader::specs::Words::report_is, reader::specs::Words::accepted_is, reader::specs::Words::refused_report, standard::specs::Report::report_of))]
fn tell(read: Result<Report, Refusal>) -> Told
    ensures { told_is result ≡ report_is read }
{
    match read {
        Ok(report) => Told {
            number: 0,
            place: 0,
            report,
        },
        Err(why) => {
            let fault = fault_of(why);
            Told {
                number: fault.number,
                place: fault.place,
                report: Report {
                    language: no_word(),
                    script: no_word(),
                    region: no_word(),
                    variants: 0,
                    extensions: 0,
                },
            }
        }
    }
}

// All fields of a report.
fn put_report(t: Told, out: &mut [u8], at: usize) -> usize
    requires { at + 111 ≤ length out.old }
    ensures { WritesWithin (at + 111) out.old at (fields_text (told_is t)) result out.new }
{
    let r = t.report;
    let p = put_two(t.number as usize, t.place, b'\t', out, at);
    let q = put_three(r.language, r.script, r.region, out, p);
    put_two(r.variants, r.extensions, b'\t', out, q)
}

// Why an identifier is no key, as the last field of a row.
fn put_no_key(key: u8, out: &mut [u8], at: usize) -> usize
    requires { at + 111 ≤ length out.old }
    ensures { WritesWithin (at + 111) out.old at (field (key_text key) 10) result out.new }
{
    let p = put(b"as a key", b' ', out, at);
    let q = put_number(key as usize, b':', out, p);
    let r = put(b"", b' ', out, q);
    put_meaning(key, b'\n', out, r)
}

// What is meant, as the last field of a row.
fn put_meant(number: u8, key: u8, out: &mut [u8], at: usize) -> usize
    requires { at + 111 ≤ length out.old }
    ensures { WritesWithin (at + 111) out.old at (field (meant_text number key) 10) result out.new }
{
    if number != 0 {
        return put_meaning(number, b'\n', out, at);
    }
    if key == 0 {
        return put_meaning(0, b'\n', out, at);
    }
    put_no_key(key, out, at)
}

// Writes the row of a line at the place at, and gives the next place.
pub(crate) fn put_row(line: &[u8], key: u8, out: &mut [u8], at: usize) -> usize
    requires { at + 512 ≤ length out.old }
    ensures { WritesWithin (at + 512) out.old at (row_of key line.now) result out.new }
{
    let t = tell(reader::report::read(line));
    let asked = put_asked(t.number, line, out, at);
    let fields = put_report(t, out, asked);
    put_meant(t.number, key, out, fields)
}

// Writes the rows of the lines of a piece at the front of out, as long as 512 bytes are free before each.
pub fn rows_of(piece: &[u8], out: &mut [u8]) -> Written
    ensures { let out' = out.exit.now in let out = out.entry.now in let piece = piece.entry.now in let row = row_of 0 in
        (result.used ≡ piece_used row 512 (length out) piece) × (result.len ≡ length (piece_text row 512 (length out) piece))
        × (out' ≡ sets out 0 (piece_text row 512 (length out) piece)) × (result.used ≤ length piece) × (result.len ≤ length out) }
{
    write_rows(&ReadRows {}, piece, out)
}
