// Inner. An identifier again with one of its parts underlined, as it stands below a row about it.
#![tactic(auto)]

pub mod names;

ghost use Rattle.std.specs.Prelude.{Some, map, ◌+◌, ◌≤◌, length, take, replicate};
ghost use Rattle.standard.specs.Places.{shown, Apart};
ghost use Rattle.byte_string.specs.Strings.{Writes, WritesWithin};
ghost use Rattle.reader.specs.Spans.{span_is, places_is, Counted};
ghost use Rattle.underline.specs.Underline.{part_spans, span_marks, marks_text, lines_text, underlined_text, Drawable};

use reader::spans::{Places, Span};
use tsv::put;

// A part of an identifier to underline.
#[derive(Clone, Copy, PartialEq, Eq)]
pub enum Part {
    Language,
    Script,
    Region,
    Variants,
}

// Writes a byte n times at the place at, and gives the next place.
fn put_times(byte: u8, n: usize, out: &mut [u8], at: usize) -> usize
    requires { at + n ≤ length out.old }
    ensures { Writes out.old at (replicate n byte) result out.new }
{
    out[at..at + n].fill(byte);
    at + n
}

// Writes the marks below a span, from a column on.
fn put_marks(s: Span, column: usize, out: &mut [u8], at: usize) -> usize
    requires { (column ≤ s.start) × (at + length (span_marks column (span_is s)) ≤ length out.old) }
    ensures { Writes out.old at (span_marks column (span_is s)) result out.new }
{
    let start = s.start as usize;
    let p = put_times(b' ', start - column, out, at);
    put_times(b'^', s.len as usize, out, p)
}

// The same of the first so many spans, from the first column on.
fn put_all_marks(spans: [Span; 50], count: usize, out: &mut [u8], at: usize) -> usize
    requires { let ss = take count (map span_is spans) in
        (count ≤ 50) × Apart 0 ss × (at + length (marks_text 0 ss) ≤ length out.old) }
    ensures { Writes out.old at (marks_text 0 (take count (map span_is spans))) result out.new }
{
    let mut p = at;
    let mut column = 0;
    for i in 0..count {
        let s = spans[i];
        p = put_marks(s, column, out, p);
        column = s.start as usize + s.len as usize;
    }
    p
}

// Writes an identifier and the marks below a span of it, if something was written there.
fn underline_one(id: &[u8], s: Span, out: &mut [u8], at: usize) -> usize
    requires { let id = id.now in Drawable (length id) (shown (span_is s)) × (length id ≤ 255) × (at + 512 ≤ length out.old) }
    ensures { WritesWithin (at + 512) out.old at (lines_text id.now (shown (span_is s))) result out.new }
{
    if s.len == 0 {
        return at;
    }
    let p = put(id, b'\n', out, at);
    let q = put_marks(s, 0, out, p);
    out[q] = b'\n';
    q + 1
}

// The same of the first so many spans.
fn underline_all(id: &[u8], spans: [Span; 50], count: usize, out: &mut [u8], at: usize) -> usize
    requires { let id = id.now in let ss = take count (map span_is spans) in
        (count ≤ 50) × Drawable (length id) ss × (length id ≤ 255) × (at + 512 ≤ length out.old) }
    ensures { WritesWithin (at + 512) out.old at (lines_text id.now (take count (map span_is spans))) result out.new }
{
    if count == 0 {
        return at;
    }
    let p = put(id, b'\n', out, at);
    let q = put_all_marks(spans, count, out, p);
    out[q] = b'\n';
    q + 1
}

// Writes an identifier with the part underlined.
fn put_part(part: Part, id: &[u8], places: Places, count: usize, out: &mut [u8], at: usize) -> usize
    requires { let id = id.now in
        Counted count places × Drawable (length id) (part_spans (Some part) (places_is count places)) × (length id ≤ 255) × (at + 512 ≤ length out.old) }
    ensures { WritesWithin (at + 512) out.old at (underlined_text (Some part) id.now (places_is count places)) result out.new }
{
    let language = places.language;
    let script = places.script;
    let region = places.region;
    let variants = places.variants;
    match part {
        Part::Language => underline_one(id, language, out, at),
        Part::Script => underline_one(id, script, out, at),
        Part::Region => underline_one(id, region, out, at),
        Part::Variants => underline_all(id, variants, count, out, at),
    }
}

// Writes an identifier with a part underlined at the place at, and gives the next place. Nothing is written where no part is
// asked for, or where it was not written.
pub fn put_underlined(
    part: Option<Part>,
    id: &[u8],
    places: Places,
    count: usize,
    out: &mut [u8],
    at: usize,
) -> usize
    requires { let id = id.now in
        Counted count places × Drawable (length id) (part_spans part (places_is count places)) × (length id ≤ 255) × (at + 512 ≤ length out.old) }
    ensures { WritesWithin (at + 512) out.old at (underlined_text part id.now (places_is count places)) result out.new }
{
    match part {
        None => at,
        Some(part) => put_part(part, id, places, count, out, at),
    }
}
