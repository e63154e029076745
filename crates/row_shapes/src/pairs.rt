// The rows of the likely and the parent table: a key, a tab and a value.
ghost use Rattle.std.specs.Prelude.{◌≡◌, ◌+◌, ◌≤◌, ◌<◌, eqb, length, take, drop, get_or};
ghost use Rattle.row_shapes.specs.Shapes.{between};
ghost use Rattle.row_shapes.specs.Rows.{known_parts, PairIs, LineIs};

use crate::Table;
use crate::lsr::front_of;

// Does the byte stand at the place?
fn stands(s: &[u8], at: usize, b: u8) -> bool
    requires { 0 < b }
    ensures { result ≡ eqb (get_or s.now at 0) b }
{
    at < s.len() && s[at] == b
}

// Two texts of language, perhaps script, perhaps region, with a tab between them and 0A behind: where they end, and where
// language and script of the second end in it.
#[derive(Clone, Copy)]
pub struct Pair {
    pub tab: usize,
    pub language: usize,
    pub script: usize,
    pub end: usize,
}

fn pair_of(s: &[u8]) -> Option<Pair>
    ensures { PairIs s.now result }
{
    let key = front_of(s)?;
    let tab = key.end;
    if !stands(s, tab, b'\t') {
        return None;
    }
    let start = tab + 1;
    let value = front_of(&s[start..])?;
    let end = start + value.end;
    if !stands(s, end, b'\n') {
        return None;
    }
    Some(Pair {
        tab,
        language: value.language,
        script: value.script,
        end,
    })
}

// A row at the front of the rest of a table: where its key ends, which rows are sorted by, and where its 0A is.
#[derive(Clone, Copy)]
pub struct Line {
    pub key: usize,
    pub end: usize,
}

// Are all three there, and none `und`, `Zzzz` or `ZZ`? Language and script end at l and e.
#[tactic(auto, unfolding(crate::specs::Rows::known_parts, standard::specs::Tag::present))]
fn known_parts(s: &[u8], l: usize, e: usize) -> bool
    requires { (l ≤ e) × (e ≤ length s.now) }
    ensures { result ≡ known_parts (take l s.now) (between s.now l e) (drop (e + 1) s.now) }
{
    let script = l + 1;
    let region = e + 1;
    if e <= script
        || s.len() <= region
        || byte_string::same(&s[..l], b"und")
        || byte_string::same(&s[script..e], b"Zzzz")
    {
        return false;
    }
    !byte_string::same(&s[region..], b"ZZ")
}

// A likely row: key and value, in which nothing is unknown.
pub(crate) fn likely_row(s: &[u8]) -> Option<Line>
    ensures { LineIs Table.Likely s.now result }
{
    let pair = pair_of(s)?;
    let key = pair.tab;
    let start = key + 1;
    let end = pair.end;
    if known_parts(&s[start..end], pair.language, pair.script) {
        Some(Line { key, end })
    } else {
        None
    }
}

// A parent row: a key other than `und` alone, and a value.
pub(crate) fn parent_row(s: &[u8]) -> Option<Line>
    ensures { LineIs Table.Parents s.now result }
{
    let pair = pair_of(s)?;
    let key = pair.tab;
    if byte_string::same(&s[..key], b"und") {
        return None;
    }
    Some(Line { key, end: pair.end })
}
