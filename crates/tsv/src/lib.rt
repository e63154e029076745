// Inner. Rows of text as the programs print them: fields, each with the mark that ends it (a tab, or 0A at the last
// one).
#![tactic(auto)]

mod shown;

ghost use Rattle.std.specs.Prelude.{◌≡◌, ◌+◌, ◌*◌, ◌≤◌, ◌<◌, length, drop};
ghost use Rattle.std.proofs.lemmas.List.Edits.{sets};
ghost use Rattle.byte_string.specs.Strings.{Writes, WritesWithin};
ghost use Rattle.tsv.specs.Fields.{decimal, field, asked_of, table_text, text_is};
ghost use Rattle.tsv.specs.Shown.{shown};

use shown::put_safe;

// The digits of a number, from the index `start` on.
#[derive(Clone, Copy)]
pub struct Digits {
    pub bytes: [u8; 20],
    pub start: usize,
}

// A line of text: its first `len` bytes.
#[derive(Clone, Copy)]
pub struct Text {
    pub bytes: [u8; 80],
    pub len: usize,
}

// A digit's character.
fn digit(n: usize) -> u8
    requires { n < 10 }
    ensures { result ≡ 48 + n }
{
    48 + n as u8
}

// A number in decimal, from its last digit on.
fn digits_of(n: usize) -> Digits
    ensures { (drop result.start result.bytes ≡ decimal n) × (result.start ≤ 20) }
{
    let mut bytes = [0u8; 20];
    let mut rest = n;
    for start in (0..20).rev() {
        bytes[start] = digit(rest % 10);
        rest /= 10;
        if rest == 0 {
            return Digits { bytes, start };
        }
    }
    Digits { bytes, start: 0 }
}

// Writes src and the mark that ends it at the place at, and gives the next place.
pub fn put(src: &[u8], mark: u8, out: &mut [u8], at: usize) -> usize
    requires { at + length src.now + 1 ≤ length out.old }
    ensures { Writes out.old at (field src.now mark) result out.new }
{
    let end = byte_string::put(src, out, at);
    out[end] = mark;
    end + 1
}

// The same of the bytes of src from an index on.
fn put_from(src: &[u8], from: usize, mark: u8, out: &mut [u8], at: usize) -> usize
    requires { (from ≤ length src.now) × (at + length src.now + 1 ≤ length out.old + from) }
    ensures { Writes out.old at (field (drop from src.now) mark) result out.new }
{
    put(&src[from..], mark, out, at)
}

// The same of a number of one digit, with no room made for more.
fn put_digit(n: usize, mark: u8, out: &mut [u8], at: usize) -> usize
    requires { (n < 10) × (at + 2 ≤ length out.old) }
    ensures { WritesWithin (at + 2) out.old at (field (decimal n) mark) result out.new }
{
    out[at] = digit(n);
    out[at + 1] = mark;
    at + 2
}

// The same of a number.
pub fn put_number(n: usize, mark: u8, out: &mut [u8], at: usize) -> usize
    requires { at + 21 ≤ length out.old }
    ensures { WritesWithin (at + 21) out.old at (field (decimal n) mark) result out.new }
{
    if n < 10 {
        return put_digit(n, mark, out, at);
    }
    let d = digits_of(n);
    let start = d.start;
    let bytes = d.bytes;
    put_from(&bytes, start, mark, out, at)
}

// What was asked, or `-`.
#[tactic(auto, unfolding(crate::specs::Fields::asked_of))]
pub fn put_asked(number: u8, line: &[u8], out: &mut [u8], at: usize) -> usize
    requires { (at + length (asked_of number line.now) + 1 ≤ length out.old) × (at + 2 ≤ length out.old) }
    ensures { Writes out.old at (field (asked_of number line.now) 9) result out.new }
{
    match number {
        2 | 3 => put(b"-", b'\t', out, at),
        _ => put(line, b'\t', out, at),
    }
}

// Writes src as it is shown, and the mark that ends it.
pub fn put_shown(src: &[u8], most: usize, mark: u8, out: &mut [u8], at: usize) -> usize
    requires { at + 4 * most + 4 ≤ length out.old }
    ensures { WritesWithin (at + 4 * most + 4) out.old at (field (shown most src.now) mark) result out.new }
{
    if src.len() == 0 {
        return put(b"-", mark, out, at);
    }
    let end = put_safe(src, most, out, at);
    if src.len() <= most {
        out[end] = mark;
        return end + 1;
    }
    put(b"...", mark, out, end)
}

// Writes the line of a bad table at the front of out.
pub fn put_table(number: usize, place: usize, table: usize, out: &mut [u8]) -> usize
    requires { 80 ≤ length out.old }
    ensures { (result ≡ length (table_text number place table)) × (out.new ≡ sets out.old 0 (table_text number place table)) × (result ≤ 80) }
{
    let p = put(b"table", 9, out, 0);
    let q = put_number(number, b'\t', out, p);
    let r = put_number(table, b'\t', out, q);
    put_number(place, b'\n', out, r)
}

fn room() -> [u8; 80]
    ensures { length result ≡ 80 }
{
    [0u8; 80]
}

// The line that a bad table gives: `table`, number, table, place.
pub fn table_line(number: u8, place: usize, table: u8) -> Text
    ensures { (text_is result ≡ table_text number place table) × (result.len ≤ 80) }
{
    let mut bytes = room();
    let len = put_table(number as usize, place, table as usize, &mut bytes);
    Text { bytes, len }
}
