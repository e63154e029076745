// Inner. Tables as lent bytes: the lookup of one row, which hands back the value as a part of the table. `lookup`
// reads line by line and answers for all bytes; `find_sorted` gives the same answer by halves where the rows ascend, and
// `hints` mostly without a search.
#![tactic(auto)]

pub mod hints;

ghost use Rattle.std.specs.Prelude.{◌≡◌, [], ◌∷◌, ◌++◌, ◌≤◌, length};
ghost use Rattle.std.specs.Option.{IfSome};
ghost use Rattle.standard.specs.Table.{located};
ghost use Rattle.table.specs.Lines.{starts, found_is, value_is, value_if, row_in, InTable};
ghost use Rattle.table.specs.Search.{below, Sorted, LineStart, Landed};

use byte_string::end_of;
use std::ops::Range;

// Does the line begin with the key and a tab?
pub fn starts_row(line: &[u8], key: &[u8]) -> bool
    ensures { result ≡ starts (key.now ++ (9 ∷ [])) line.now }
{
    let n = key.len();
    // the tab first: it rules out most lines at once
    if line.len() <= n || line[n] != b'\t' {
        return false;
    }
    &line[..n] == key
}

// Where the value of the line from i to e is, if the line begins with the key and a tab.
fn value_in(t: &[u8], i: usize, e: usize, key: &[u8]) -> Option<Range<usize>>
    requires { (i ≤ e) × (e ≤ length t.now) }
    ensures { (found_is result ≡ row_in t.now key.now i e) × InTable t.now result }
{
    if starts_row(&t[i..e], key) {
        Some(i + key.len() + 1..e)
    } else {
        None
    }
}

// The place of the value of the first line that begins with the key and a tab: from there to the line's 0A or the end.
pub fn find(t: &[u8], key: &[u8]) -> Option<Range<usize>>
    ensures { (found_is result ≡ located t.now key.now) × InTable t.now result }
{
    let mut i = 0;
    // a step is as long as its line
    while i < t.len() {
        let e = end_of(t, b'\n', i);
        if let Some(value) = value_in(t, i, e, key) {
            return Some(value);
        }
        i = e + 1;
    }
    None
}

// The value of the first row with the key, as a part of the table.
pub fn lookup<'a>(t: &'a [u8], key: &[u8]) -> Option<&'a [u8]>
    ensures { let t = t.entry.now in value_is result ≡ value_if t (located t key.now) }
{
    let value = find(t, key)?;
    Some(&t[value])
}

// Does the line come before every line that begins with the key and a tab?
pub(crate) fn below_row(line: &[u8], key: &[u8]) -> bool
    ensures { result ≡ below line.now (key.now ++ (9 ∷ [])) }
{
    // by hand, and not by `cmp` of the two fronts: most lines differ in the first bytes
    for (i, b) in key.iter().enumerate() {
        if line.len() <= i {
            return true;
        }
        if line[i] < *b {
            return true;
        }
        if *b < line[i] {
            return false;
        }
    }
    line.len() <= key.len() || line[key.len()] < b'\t'
}

// The start of the line that `from` is in, or lo where that is later.
fn line_start(t: &[u8], lo: usize, from: usize) -> usize
    requires { (lo ≤ from) × (from ≤ length t.now) }
    ensures { LineStart t.now lo from result }
{
    match t[lo..from].iter().rev().position(|b| *b == b'\n') {
        Some(back) => from - back,
        None => lo,
    }
}

// Where the row with the key is in a sorted table, if it is there.
fn locate(t: &[u8], key: &[u8]) -> usize
    ensures { Sorted t.now → Landed t.now key.now result }
{
    let mut lo = 0;
    let mut hi = t.len();
    // by hand: rows differ in length, and std's search wants an element for each
    while lo < hi {
        let mid = lo + (hi - lo) / 2;
        let m = line_start(t, lo, mid);
        // no 0A stands between m and mid
        let e = end_of(t, b'\n', mid);
        if below_row(&t[m..e], key) {
            lo = e + 1;
        } else {
            hi = m;
        }
    }
    lo
}

// As find, of a sorted table.
pub fn find_sorted(t: &[u8], key: &[u8]) -> Option<Range<usize>>
    ensures { (Sorted t.now → found_is result ≡ located t.now key.now) × InTable t.now result }
{
    let i = locate(t, key);
    if t.len() <= i {
        return None;
    }
    let line_end = end_of(t, b'\n', i);
    value_in(t, i, line_end, key)
}

// As lookup, of a sorted table.
pub fn lookup_sorted<'a>(t: &'a [u8], key: &[u8]) -> Option<&'a [u8]>
    ensures value { let t = t.entry.now in Sorted t → value_is result ≡ value_if t (located t key.now) }
    ensures within { IfSome result (λ v. length v.now ≤ length t.entry.now) }
{
    let value = find_sorted(t, key)?;
    Some(&t[value])
}
