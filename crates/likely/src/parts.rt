// Language, script and region as parts of lent bytes: script and region each with its separator in front, empty where
// absent. A key of the likely table is its parts, one after the other.
ghost use Rattle.std.specs.Prelude.{◌≡◌};
ghost use Rattle.standard.specs.Tag.{pick};
ghost use Rattle.likely.specs.Parts.{known_part, cut_parts, complete_parts, language_of};
ghost use Rattle.likely.specs.Lent.{parts_is};

use byte_string::{end_of, same};

#[derive(Clone, Copy)]
pub struct Parts<'a> {
    pub language: &'a [u8],
    pub script: &'a [u8],
    pub region: &'a [u8],
}

// The parts of a value, cut before its first two '-'.
pub(crate) fn cut_value<'a>(v: &'a [u8]) -> Parts<'a>
    ensures { parts_is result ≡ cut_parts v.entry.now }
{
    let a = end_of(v, b'-', 0);
    let b = end_of(v, b'-', a + 1);
    Parts {
        language: &v[..a],
        script: &v[a..b],
        region: &v[b..],
    }
}

// Is nothing missing?
pub(crate) fn is_complete(parts: &Parts) -> bool
    ensures { result ≡ complete_parts (parts_is parts.entry.now) }
{
    !same(parts.language, b"und") && !parts.script.is_empty() && !parts.region.is_empty()
}

// The part, or none where it is this unknown one.
pub(crate) fn known<'a>(part: &'a [u8], unknown: &[u8]) -> &'a [u8]
    ensures { result.now ≡ known_part unknown.now part.now }
{
    if same(part, unknown) { b"" } else { part }
}

// The first part, or the other where there is none.
pub(crate) fn first_of<'a>(first: &'a [u8], other: &'a [u8]) -> &'a [u8]
    ensures { result.now ≡ pick first.now other.now }
{
    if first.is_empty() { other } else { first }
}

// The language, or the other where it is `und`.
pub(crate) fn language_of<'a>(language: &'a [u8], other: &'a [u8]) -> &'a [u8]
    ensures { result.now ≡ language_of language.now other.now }
{
    if same(language, b"und") {
        other
    } else {
        language
    }
}
