// Hints beside a table, made once where many keys are looked up: a no mostly takes one read, and a yes one comparison.
// A hint that leads nowhere costs time only: the search by halves decides then.
ghost use Rattle.std.specs.Prelude.{◌≡◌, ◌+◌, ◌≤◌, ◌<◌, length};
ghost use Rattle.standard.specs.Table.{located};
ghost use Rattle.table.specs.Lines.{found_is, value_is, value_if, InTable};
ghost use Rattle.table.specs.Search.{Sorted};
ghost use Rattle.table.specs.Hints.{slot_step, slot_from, place_of, hint_at, Blank, OpensIs, Seen, Leads, Hinted, Indexed, hint_of};

use crate::{find_sorted, value_in};
use byte_string::end_of;
use std::ops::Range;

// A table with hints, whatever both are.
#[derive(Clone, Copy)]
pub struct HintedTable<'a> {
    pub rows: &'a [u8],
    pub hints: &'a [u16],
}

impl<'a> HintedTable<'a> {
    // As crate::find, where the rows ascend and the hints lead.
    pub fn find(self, key: &[u8]) -> Option<Range<usize>>
        ensures { let t = self.entry.rows.now in
            (Indexed t self.entry.hints.now → found_is result ≡ located t key.now) × InTable t result }
    {
        find_by(self.rows, self.hint(slot_from(0, key)), key)
    }

    // As crate::lookup, where the rows ascend and the hints lead.
    pub fn lookup(self, key: &[u8]) -> Option<&'a [u8]>
        ensures { let t = self.entry.rows.now in
            Indexed t self.entry.hints.now → value_is result ≡ value_if t (located t key.now) }
    {
        let value = self.find(key)?;
        Some(&self.rows[value])
    }

    // The slot's hint; one that is missing says nothing.
    pub fn hint(self, slot: usize) -> usize
        ensures { result ≡ hint_at self.entry.hints.now slot }
    {
        let at = place_of(self.hints.len(), slot);
        if at < self.hints.len() {
            self.hints[at] as usize
        } else {
            65535
        }
    }
}

// A sorted table with its hints.
#[derive(Clone, Copy)]
pub struct IndexedTable<'a> {
    pub rows: &'a [u8],
    pub hints: &'a [u16],
    ghost indexed: { Indexed rows.now hints.now },
}

// The table with its hints.
pub fn indexed<'a>(rows: &'a [u8], hints: &'a [u16]) -> IndexedTable<'a>
    requires { Indexed rows.now hints.now }
    ensures { (result.rows.now ≡ rows.entry.now) × (result.hints.now ≡ hints.entry.now) }
{
    IndexedTable { rows, hints }
}

impl<'a> IndexedTable<'a> {
    // As crate::find.
    pub fn find(self, key: &[u8]) -> Option<Range<usize>>
        ensures { let t = self.entry.rows.now in (found_is result ≡ located t key.now) × InTable t result }
    {
        self.hinted().find(key)
    }

    // As crate::lookup.
    pub fn lookup(self, key: &[u8]) -> Option<&'a [u8]>
        ensures { let t = self.entry.rows.now in value_is result ≡ value_if t (located t key.now) }
    {
        self.hinted().lookup(key)
    }

    // The slot's hint; one that is missing says nothing.
    pub fn hint(self, slot: usize) -> usize
        ensures { result ≡ hint_at self.entry.hints.now slot }
    {
        self.hinted().hint(slot)
    }

    // The same table and hints, for a function that takes any.
    pub fn hinted(self) -> HintedTable<'a>
        ensures { (result.rows.now ≡ self.entry.rows.now) × (result.hints.now ≡ self.entry.hints.now) }
    {
        HintedTable {
            rows: self.rows,
            hints: self.hints,
        }
    }
}

// The slot of the bytes before and one more.
fn step(h: usize, b: u8) -> usize
    requires { h < 16384 }
    ensures { (result ≡ slot_step h b) × (result < 16384) }
{
    (h * 33 + b as usize) % 16384
}

// The slot of a key whose beginning has the slot h.
pub fn slot_from(h: usize, key: &[u8]) -> usize
    requires { h < 16384 }
    ensures { (result ≡ slot_from h key.now) × (result < 16384) }
{
    let mut slot = h;
    for b in key {
        slot = step(slot, *b);
    }
    slot
}

// A slot's hint once there is a row at the place with this slot.
fn hint_of(old: u16, place: usize) -> u16
    ensures { result ≡ hint_of old place }
{
    if 32766 < place {
        65535
    } else if old == 0 {
        (place + 1) as u16
    } else if old < 32768 {
        old + 32767
    } else {
        old
    }
}

// A slot's place among n hints.
fn place_of(n: usize, slot: usize) -> usize
    ensures { result ≡ place_of n slot }
{
    if n == 1024 { slot % 1024 } else { slot }
}

// No hints yet, for a small table and for any other. Few are soon cleared, and more keys share a slot. Two functions:
// one generic in the number would ask each caller to show that every slot has a place among so many.
pub fn few() -> [u16; 1024]
    ensures { Blank result }
{
    [0; 1024]
}

pub fn many() -> [u16; 16384]
    ensures { Blank result }
{
    [0; 16384]
}

// Makes the hints of a table. A key may hold tabs, so every tab of a line ends a key.
pub fn fill_hints(t: &[u8], hints: &mut [u16])
    requires { Blank hints.old }
    ensures { Hinted t.now hints.new }
{
    let mut start = 0;
    let mut slot = 0;
    for (i, b) in t.iter().enumerate() {
        // most bytes end neither a key nor a line: tested first, a fourth fewer instructions
        if b'\n' < *b {
            slot = step(slot, *b);
            continue;
        }
        if *b == b'\n' {
            start = i + 1;
            slot = 0;
            continue;
        }
        if *b == b'\t' {
            let at = place_of(hints.len(), slot);
            hints[at] = hint_of(hints[at], start);
        }
        slot = step(slot, *b);
    }
}

// Does a line start at p?
pub fn opens(t: &[u8], p: usize) -> bool
    ensures { OpensIs t.now p result }
{
    p < t.len() && (p == 0 || t[p - 1] == b'\n')
}

// The row at p, if a line starts there and begins with the key and a tab.
fn row_at(t: &[u8], p: usize, key: &[u8]) -> Option<Range<usize>>
    ensures { Seen t.now key.now p (found_is result) × InTable t.now result }
{
    if opens(t, p) {
        let line_end = end_of(t, b'\n', p);
        value_in(t, p, line_end, key)
    } else {
        None
    }
}

// The row with the key, by its hint: a number whose range says its kind, and no enum, since each of 16,384 hints stands
// in two bytes of fixed memory.
pub fn find_by(t: &[u8], hint: usize, key: &[u8]) -> Option<Range<usize>>
    ensures { let t = t.entry.now in let key = key.entry.now in
        (Sorted t → Leads t key hint → found_is result ≡ located t key) × InTable t result }
{
    match hint {
        0 => None,
        1..=32767 => row_at(t, hint - 1, key),
        32768..=65534 => {
            let first = row_at(t, hint - 32768, key);
            if first.is_some() {
                first
            } else {
                find_sorted(t, key)
            }
        }
        _ => find_sorted(t, key),
    }
}
