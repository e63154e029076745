// One usage line, and what it changes of a bill.
ghost use Rattle.std.specs.Prelude.{◌≡◌, List, [], ◌∷◌, ◌++◌, ◌≤◌, ◌<◌, length, take};
ghost use Rattle.std.specs.Option.{IfSome};
ghost use Rattle.standard.specs.Delivery.{Bytes};
ghost use Rattle.bill_rules.specs.Bill.{usage};
ghost use Rattle.bill_ledger.specs.Places.{entries_from};
ghost use Rattle.bill_ledger.specs.Up.{Sized, Up, Few, Added, count_of};
ghost use Rattle.bill_lines.specs.State.{used_is, InRange, Bounded, one_more, Going, Good};
ghost use Rattle.bill_lines.specs.Over.{tables_in};

use crate::key::key_of;
use crate::shape::shape_of;
use crate::{Counts, only};
use operations::tables::TestedTables;

// A member and the length of the key.
#[derive(Clone, Copy)]
pub struct Used {
    pub member: u8,
    pub len: usize,
}

// What a line says, or none where it is refused; its key is written at the front of out.
fn usage_of(line: &[u8], tables: TestedTables, out: &mut [u8]) -> Option<Used>
    requires { 255 ≤ length out.old }
    ensures { (used_is result out.new ≡ usage (tables_in tables.entry) line.entry.now) × IfSome result InRange }
{
    let Some(shape) = shape_of(line) else {
        return None;
    };
    let Some(len) = key_of(&line[shape.start..], tables, out) else {
        return None;
    };
    Some(Used {
        member: shape.member,
        len,
    })
}

// The counts after a refused line, or with keys after an accepted one.
fn counted(c: Counts, keys: usize, refused: usize) -> Counts
    requires { c.lines < 1000000 }
    ensures { result ≡ one_more c keys refused }
{
    Counts {
        keys,
        lines: c.lines + 1,
        refused,
        ..c
    }
}

// Adds a usage, whose key stands at the front of out, to the n entries.
fn add_used(keys: &mut [u8], counts: &mut [u64], n: usize, used: Used, out: &[u8]) -> Option<usize>
    requires { (n ≤ 512) × Sized keys.old counts.old × InRange used × (255 ≤ length out.now) }
    ensures { let keys' = keys.exit.now in let counts' = counts.exit.now in let keys = keys.entry.now in
        let counts = counts.entry.now in let key = take used.len out.entry.now in let held = entries_from keys counts 0 n in
        Sized keys' counts' × IfSome result (λ r. r ≤ 512)
        × (Up held → Few held → Added (record { member = used.member; key = key }) held keys' counts' (count_of result)) }
{
    bill_ledger::add(keys, counts, n, used.member, &out[..used.len])
}

// Takes one line into a bill that is not refused.
pub(crate) fn take_line(
    c: Counts,
    line: &[u8],
    tables: TestedTables,
    keys: &mut [u8],
    counts: &mut [u64],
    out: &mut [u8],
) -> Counts
    requires { (255 ≤ length out.old) × Bounded c × Sized keys.old counts.old }
    ensures { let T = tables_in tables.entry in
        Bounded result × Sized keys.new counts.new
        × ((ls : List Bytes) → Going T ls c keys.old counts.old → Good T (ls ++ (line.now ∷ [])) result keys.new counts.new) }
{
    if 1000000 <= c.lines {
        return only(18, 0, 0);
    }
    let Some(used) = usage_of(line, tables, out) else {
        return counted(c, c.keys, c.refused + 1);
    };
    match add_used(keys, counts, c.keys, used, out) {
        Some(n) => counted(c, n, c.refused),
        None => only(17, 0, 0),
    }
}
