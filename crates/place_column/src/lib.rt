// Inner. Where the parts of an identifier stand, as a column of a row that ends with it.
#![tactic(auto)]

ghost use Rattle.std.specs.Prelude.{◌≡◌, ◌+◌, ◌≤◌, length};
ghost use Rattle.byte_string.specs.Strings.{WritesWithin};
ghost use Rattle.reader.specs.Spans.{span_is, up_to_count, places_is, Counted};
ghost use Rattle.tsv.specs.Fields.{field};
ghost use Rattle.place_column.specs.Column.{span_text, mark_behind, spans_text, places_text};

use reader::spans::{Places, Span};
use tsv::{put, put_number};

// Writes a place and the mark that ends it at the place at, and gives the next place.
fn put_span(s: Span, mark: u8, out: &mut [u8], at: usize) -> usize
    requires { at + 42 ≤ length out.old }
    ensures { WritesWithin (at + 42) out.old at (field (span_text (span_is s)) mark) result out.new }
{
    if s.len == 0 {
        return put(b"-", mark, out, at);
    }
    let p = put_number(s.start as usize, b'+', out, at);
    put_number(s.len as usize, mark, out, p)
}

// The mark that ends a place, with which so many are left.
#[tactic(auto, unfolding(crate::specs::Column::mark_behind))]
fn mark_behind(left: usize) -> u8
    ensures { result ≡ mark_behind left }
{
    if left == 1 { b'\n' } else { b' ' }
}

// Writes the places of the variants.
fn put_variants(places: Places, count: usize, out: &mut [u8], at: usize) -> usize
    requires { Counted count places × (at + 2100 ≤ length out.old) }
    ensures { WritesWithin (at + 2100) out.old at (spans_text (up_to_count count places)) result out.new }
{
    let spans = places.variants;
    let mut end = at;
    for i in 0..count {
        end = put_span(spans[i], mark_behind(count - i), out, end);
    }
    end
}

// Writes the places of all parts.
pub fn put_places(places: Places, count: usize, out: &mut [u8], at: usize) -> usize
    requires { Counted count places × (at + 2226 ≤ length out.old) }
    ensures { WritesWithin (at + 2226) out.old at (places_text (places_is count places)) result out.new }
{
    let language = places.language;
    let script = places.script;
    let region = places.region;
    let p = put_span(language, b' ', out, at);
    let q = put_span(script, b' ', out, p);
    let r = put_span(region, mark_behind(count + 1), out, q);
    put_variants(places, count, out, r)
}
