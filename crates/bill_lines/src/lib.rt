// Public, over lines. A month's usage lines, taken into a bill a piece at a time.
#![tactic(auto)]

mod key;
mod line;
mod piece;
pub mod shape;
pub mod text;

ghost use Rattle.std.specs.Prelude.{◌≡◌, true, List, [], ◌++◌, ℕ, ◌≤◌, length};
ghost use Rattle.standard.specs.Delivery.{Bytes};
ghost use Rattle.standard.specs.Table.{tables_of};
ghost use Rattle.table.specs.Lines.{lines};
ghost use Rattle.operations.specs.Both.{TestedBoth};
ghost use Rattle.bill_ledger.specs.Up.{Sized};
ghost use Rattle.bill_lines.specs.State.{Bounded, only as onlyOf, Going, Good};
ghost use Rattle.bill_lines.specs.Held.{Held, Usable, Stays, judged_by};

use crate::piece::take_lines;
use canonical::buffer::buffer;
use operations::tables::{TestedTables, tested};
use table::hints::{fill_hints, indexed, many};
use table_check::{Fault, check_likely};

// A bill's refusal (11 to 14 for the tables, 17 or 18), with the place and the table of a table's; the number of its keys,
// of the lines read and of those refused. The numbers are the standard's, and no enum: `only` and `faulted` of specs/ make
// counts of them.
#[derive(Clone, Copy)]
pub struct Counts {
    pub number: u8,
    pub place: usize,
    pub table: u8,
    pub keys: usize,
    pub lines: usize,
    pub refused: usize,
}

// The counts of a refusal, or with number 0 of no lines.
fn only(number: u8, place: usize, table: u8) -> Counts
    ensures { result ≡ onlyOf number place table }
{
    Counts {
        number,
        place,
        table,
        keys: 0,
        lines: 0,
        refused: 0,
    }
}

// The counts after the check of the tables: a bad one's number, place and table.
fn judged(v: Result<(), Fault>) -> Counts
    ensures { result ≡ judged_by v }
{
    match v {
        Ok(()) => only(0, 0, 0),
        Err(fault) => only(fault.number(), fault.place, fault.table_number()),
    }
}

// The counts of a bill over no lines, or of one with bad tables. Its arrays are 16,384 bytes for the keys and 1,024
// numbers, whatever stands in them.
pub fn start(aliases: &[u8], likely: &[u8]) -> Counts
    ensures { (ks : Bytes) → (cs : List ℕ) → Sized ks cs → Held aliases.now likely.now [] result ks cs }
{
    judged(check_likely(aliases, likely))
}

// Takes the lines of a piece into a bill that can go on, over tables that passed their check, each with its hints. What
// stands in out is of no account.
pub fn add_hinted(
    c: Counts,
    piece: &[u8],
    tables: TestedTables,
    keys: &mut [u8],
    counts: &mut [u64],
    out: &mut [u8],
) -> Counts
    requires { (255 ≤ length out.old) × Usable c keys.old counts.old }
    ensures { let keys' = keys.exit.now in let counts' = counts.exit.now in let aliases = tables.entry.aliases.rows.now in
        let likely = tables.entry.likely.rows.now in let keys = keys.entry.now in let counts = counts.entry.now in let piece = piece.entry.now in
        ((ls : List Bytes) → Held aliases likely ls c keys counts → Held aliases likely (ls ++ lines piece) result keys' counts') × Sized keys' counts' }
{
    take_lines(c, piece, tables, keys, counts, out)
}

// Takes the lines of a piece into a bill that is not refused, over tables that passed their check. Their hints are made
// once for the piece.
fn add_tested(
    c: Counts,
    piece: &[u8],
    aliases: &[u8],
    likely: &[u8],
    keys: &mut [u8],
    counts: &mut [u64],
) -> Counts
    requires { TestedBoth aliases.now likely.now × Bounded c × Sized keys.old counts.old }
    ensures { Bounded result × Sized keys.new counts.new
        × ((ls : List Bytes) → Going (tables_of aliases.now likely.now []) ls c keys.old counts.old
        → Good (tables_of aliases.now likely.now []) (ls ++ lines piece.now) result keys.new counts.new) }
{
    let mut alias_hints = many();
    fill_hints(aliases, &mut alias_hints);
    let mut likely_hints = many();
    fill_hints(likely, &mut likely_hints);
    let tables = tested(
        indexed(aliases, &alias_hints),
        indexed(likely, &likely_hints),
    );
    let mut out = buffer();
    take_lines(c, piece, tables, keys, counts, &mut out)
}

// Can a bill with these counts and arrays go on?
fn is_usable(c: Counts, keys: &[u8], counts: &[u64]) -> bool
    ensures { (result ≡ true → Usable c keys.now counts.now) × (Usable c keys.now counts.now → result ≡ true) }
{
    c.number == 0
        && keys.len() == 16384
        && counts.len() == 1024
        && c.keys <= 512
        && c.lines <= 1000000
        && c.refused <= c.lines
}

// Takes the lines of a piece into a bill. A refused bill stays as it is, and so do counts and arrays that are no bill's.
pub fn add(
    c: Counts,
    piece: &[u8],
    aliases: &[u8],
    likely: &[u8],
    keys: &mut [u8],
    counts: &mut [u64],
) -> Counts
    ensures { let keys' = keys.exit.now in let counts' = counts.exit.now in let aliases = aliases.entry.now in
        let likely = likely.entry.now in let keys = keys.entry.now in let counts = counts.entry.now in let piece = piece.entry.now in
        ((ls : List Bytes) → Held aliases likely ls c keys counts → Held aliases likely (ls ++ lines piece) result keys' counts')
        × ((Usable c keys counts → ⊥) → Stays c result keys keys' counts counts') }
{
    if !is_usable(c, keys, counts) {
        return c;
    }
    if let Err(fault) = check_likely(aliases, likely) {
        return judged(Err(fault));
    }
    add_tested(c, piece, aliases, likely, keys, counts)
}
