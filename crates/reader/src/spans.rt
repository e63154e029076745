// Where language, script, region and variants stand in the input.
ghost use Rattle.std.specs.Prelude.{◌≡◌, [], map, ◌+◌, ◌≤◌, ◌<◌, length, drop};
ghost use Rattle.std.proofs.Math.Option.{none};
ghost use Rattle.standard.specs.Tag.{head_tag};
ghost use Rattle.standard.specs.Grammar.{is_singleton};
ghost use Rattle.standard.specs.Reading.{split, fault_of, up_to};
ghost use Rattle.standard.specs.Places.{span as spanAt, nowhere as unwrittenSpan, places_of, unwritten};
ghost use Rattle.reader.specs.Parts.{parts_of};
ghost use Rattle.reader.specs.Spans.{span_is, part_span, spans_at, Begin, padded, places_is, Counted};

use crate::Parts;

// Where a subtag begins and how long it is; 0 and 0 where none was written. Both fit a byte, as an identifier has at most
// 255 bytes.
#[derive(Clone, Copy)]
pub struct Span {
    pub start: u8,
    pub len: u8,
}

// Of each part; of the variants one entry each, in the order typed, and behind them 0 and 0. No more than 50 fit.
#[derive(Clone, Copy)]
pub struct Places {
    pub language: Span,
    pub script: Span,
    pub region: Span,
    pub variants: [Span; 50],
}

// A place that fits.
#[tactic(auto, unfolding(crate::specs::Spans::span_is))]
fn new_span(start: usize, len: usize) -> Span
    requires { (start < 256) × (len < 256) }
    ensures { span_is result ≡ spanAt start len }
{
    Span {
        start: start as u8,
        len: len as u8,
    }
}

// The place of what was never written.
#[tactic(auto, unfolding(crate::specs::Spans::span_is))]
fn nowhere() -> Span
    ensures { span_is result ≡ unwrittenSpan }
{
    Span { start: 0, len: 0 }
}

// The places of no variant.
#[tactic(auto, unfolding(crate::specs::Spans::span_is, crate::specs::Spans::in_room))]
fn no_variants() -> [Span; 50]
    ensures { map span_is result ≡ padded [] }
{
    [nowhere(); 50]
}

// The subtag of a part that goes from `from` to `to`.
#[tactic(auto, unfolding(crate::specs::Spans::part_span))]
fn part_span(from: usize, to: usize) -> Span
    requires { to ≤ 255 }
    ensures { span_is result ≡ part_span from to }
{
    if to <= from {
        nowhere()
    } else if from == 0 {
        new_span(0, to)
    } else {
        let start = from + 1;
        new_span(start, to - start)
    }
}

// Where the subtag at `at` ends.
fn subtag_end(id: &[u8], at: usize) -> usize
    requires { at ≤ length id.now }
    ensures { let id = id.now in (result ≡ at + length (head_tag (split (drop at id)))) × (result ≤ length id) }
{
    at + subtag::scan(&id[at..]).len
}

// So many variants, behind the separator at `from`.
fn variant_spans(id: &[u8], from: usize, count: usize) -> [Span; 50]
    requires { let id = id.now in (length id ≤ 255) × (count ≤ 50) × Begin count (from + 1) id }
    ensures { map span_is result ≡ padded (spans_at count (from + 1) id.now) }
{
    let mut spans = no_variants();
    let mut end = from;
    for n in 0..count {
        let at = end + 1;
        end = subtag_end(id, at);
        spans[n] = new_span(at, end - at);
    }
    spans
}

// The places of an accepted identifier.
pub fn places_of(id: &[u8], p: Parts) -> Places
    requires { let id = id.now in (fault_of id ≡ none) × (p ≡ parts_of (split id)) }
    ensures { let id = id.now in let n = p.variant_count in
        (places_is n result ≡ places_of (up_to is_singleton (split id))) × Counted n result }
{
    let language = part_span(0, p.language);
    let script = part_span(p.language, p.script);
    let region = part_span(p.script, p.region);
    Places {
        language,
        script,
        region,
        variants: variant_spans(id, p.region, p.variant_count),
    }
}

// The places of a refusal.
pub fn no_places() -> Places
    ensures { (places_is 0 result ≡ unwritten) × Counted 0 result }
{
    Places {
        language: nowhere(),
        script: nowhere(),
        region: nowhere(),
        variants: no_variants(),
    }
}
