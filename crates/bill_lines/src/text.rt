// The text of a bill: its header, a row for each key, and the refused lines; or only the `table` line of a bad table, or
// the number of its refusal.
ghost use Rattle.std.specs.Prelude.{◌≡◌, ◌++◌, ◌+◌, ◌≤◌, ◌<◌, length};
ghost use Rattle.std.specs.Int.Count.{ones};
ghost use Rattle.std.proofs.lemmas.List.Edits.{sets};
ghost use Rattle.byte_string.specs.Strings.{WritesWithin};
ghost use Rattle.tsv.specs.Fields.{field};
ghost use Rattle.bill_ledger.specs.Places.{text_at, entry_at, entries_from};
ghost use Rattle.bill_ledger.specs.Up.{Sized};
ghost use Rattle.bill_lines.specs.Text.{header, last_text, entry_text, entries_text, counts_text, written_text};

use crate::Counts;
use bill_ledger::key_at;
use tsv::{put, put_number, put_table};

// How many members have a mark.
fn members_of(marks: u64) -> usize
    ensures { result ≡ ones marks }
{
    marks.count_ones() as usize
}

// Writes the i-th key and a tab at the place at, and gives the next place.
fn put_key(keys: &[u8], i: usize, out: &mut [u8], at: usize) -> usize
    requires { (i < 512) × (length keys.now ≡ 16384) × (at + 32 ≤ length out.old) }
    ensures { WritesWithin (at + 32) out.old at (field (text_at keys.now i) 9) result out.new }
{
    put(key_at(keys, i), b'\t', out, at)
}

// Writes the row of the i-th entry at the place at, and gives the next place.
fn put_row(keys: &[u8], counts: &[u64], i: usize, out: &mut [u8], at: usize) -> usize
    requires { (i < 512) × Sized keys.now counts.now × (at + 80 ≤ length out.old) }
    ensures { let out' = out.exit.now in let out = out.entry.now in let keys = keys.entry.now in let counts = counts.entry.now in
        WritesWithin (at + 80) out at (entry_text (entry_at keys counts i)) result out' }
{
    let members = members_of(counts[2 * i]);
    let deliveries = counts[2 * i + 1] as usize;
    let p = put_key(keys, i, out, at);
    let q = put_number(members, b'\t', out, p);
    put_number(deliveries, b'\n', out, q)
}

// The rows of the first n entries.
fn put_rows(keys: &[u8], counts: &[u64], n: usize, out: &mut [u8], at: usize) -> usize
    requires { (n ≤ 512) × Sized keys.now counts.now × (at + 40960 ≤ length out.old) }
    ensures { let out' = out.exit.now in let out = out.entry.now in let keys = keys.entry.now in let counts = counts.entry.now in
        WritesWithin (at + 40960) out at (entries_text (entries_from keys counts 0 n)) result out' }
{
    let mut end = at;
    for i in 0..n {
        end = put_row(keys, counts, i, out, end);
    }
    end
}

// The row of the refused lines.
fn put_last(refused: usize, out: &mut [u8], at: usize) -> usize
    requires { at + 25 ≤ length out.old }
    ensures { WritesWithin (at + 25) out.old at (last_text refused) result out.new }
{
    let p = put(b"-\t0", b'\t', out, at);
    put_number(refused, b'\n', out, p)
}

// The header.
fn put_header(out: &mut [u8]) -> usize
    requires { 23 ≤ length out.old }
    ensures { (result ≡ 0 + length header) × (out.new ≡ sets out.old 0 header) × (result ≤ 23) }
{
    put(b"key\tmembers\tdeliveries", b'\n', out, 0)
}

// A bill that was made.
fn put_bill(n: usize, refused: usize, keys: &[u8], counts: &[u64], out: &mut [u8]) -> usize
    requires { (n ≤ 512) × Sized keys.now counts.now × (65536 ≤ length out.old) }
    ensures { let out' = out.exit.now in let keys = keys.entry.now in let counts = counts.entry.now in let out = out.entry.now in
        (result ≡ length (header ++ (entries_text (entries_from keys counts 0 n) ++ last_text refused)))
        × (out' ≡ sets out 0 (header ++ (entries_text (entries_from keys counts 0 n) ++ last_text refused))) × (result ≤ 65536) }
{
    let p = put_header(out);
    let q = put_rows(keys, counts, n, out, p);
    put_last(refused, out, q)
}

// A bill, the line of a bad table, or the number of a refusal.
fn put_text(c: Counts, keys: &[u8], counts: &[u64], out: &mut [u8]) -> usize
    requires { (c.keys ≤ 512) × Sized keys.now counts.now × (65536 ≤ length out.old) }
    ensures { let out' = out.exit.now in let keys = keys.entry.now in let counts = counts.entry.now in let out = out.entry.now in
        (result ≡ length (counts_text c keys counts)) × (out' ≡ sets out 0 (counts_text c keys counts)) × (result ≤ 65536) }
{
    if c.number == 0 {
        return put_bill(c.keys, c.refused, keys, counts, out);
    }
    if c.number < 15 {
        return put_table(c.number as usize, c.place, c.table as usize, out);
    }
    put_number(c.number as usize, b'\n', out, 0)
}

// Writes the text of a bill at the front of out, which needs 65,536 bytes, and gives its length. Where it has fewer, or
// the arrays are not a bill's, it writes nothing and gives 0. Of a bill that holds lines this is their text (`held_writes`
// in proofs/Bills.antt).
pub fn write(c: Counts, keys: &[u8], counts: &[u64], out: &mut [u8]) -> usize
    ensures { (result ≡ length (written_text c keys.now counts.now (length out.old)))
        × (out.new ≡ sets out.old 0 (written_text c keys.now counts.now (length out.old)))
        × (result ≤ length out.old) }
{
    let fits = 65536 <= out.len();
    if fits && keys.len() == 16384 && counts.len() == 1024 && c.keys <= 512 {
        put_text(c, keys, counts, out)
    } else {
        0
    }
}
