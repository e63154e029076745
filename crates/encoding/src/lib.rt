// Inner. What the first lines of an input say of how it is written: plainly, or so that its lines can't be read as they are
// meant.
#![tactic(auto)]

ghost use Rattle.std.specs.Prelude.{◌≡◌};
ghost use Rattle.encoding.specs.Encodings.{marked, wide_pair, wide, front_of, ends_in_return, has_return, ending_of};

use byte_string::end_of;

// What stands in front: nothing but lines; a byte order mark; or what begins UTF-16.
#[derive(Clone, Copy)]
pub enum Front {
    Plain,
    ByteOrderMark,
    Utf16,
}

// What ends the first line: LF, CR LF, or with a CR in it perhaps CR alone.
#[derive(Clone, Copy)]
pub enum Ending {
    Lf,
    CrLf,
    Cr,
}

// Does the input begin with a byte order mark?
#[tactic(auto, unfolding(crate::specs::Encodings::marked))]
fn is_marked(lines: &[u8]) -> bool
    ensures { result ≡ marked lines.now }
{
    matches!(lines, [0xEF, 0xBB, 0xBF, ..])
}

// Do the first two bytes say UTF-16?
#[tactic(auto, unfolding(crate::specs::Encodings::wide_pair))]
fn is_wide_pair(a: u8, b: u8) -> bool
    ensures { result ≡ wide_pair a b }
{
    matches!((a, b), (0, _) | (_, 0) | (0xFF, 0xFE) | (0xFE, 0xFF))
}

// Is the input UTF-16?
#[tactic(auto, unfolding(crate::specs::Encodings::wide))]
fn is_wide(lines: &[u8]) -> bool
    ensures { result ≡ wide lines.now }
{
    match lines {
        [] => false,
        [only] => *only == 0,
        [first, second, ..] => is_wide_pair(*first, *second),
    }
}

// What an input begins with, by these lines.
#[tactic(auto, unfolding(crate::specs::Encodings::front_of))]
pub fn front_of(lines: &[u8]) -> Front
    ensures { result ≡ front_of lines.now }
{
    if is_marked(lines) {
        Front::ByteOrderMark
    } else if is_wide(lines) {
        Front::Utf16
    } else {
        Front::Plain
    }
}

// Does the first line end in CR before its 0A?
fn ends_in_return(lines: &[u8]) -> bool
    ensures { result ≡ ends_in_return lines.now }
{
    let end = end_of(lines, b'\n', 0);
    0 < end && end < lines.len() && lines[end - 1] == b'\r'
}

// Has the first line a CR?
fn has_return(lines: &[u8]) -> bool
    ensures { result ≡ has_return lines.now }
{
    let cr = end_of(lines, b'\r', 0);
    let lf = end_of(lines, b'\n', 0);
    cr < lf
}

// What ends the first of these lines.
#[tactic(auto, unfolding(crate::specs::Encodings::ending_of))]
pub fn ending_of(lines: &[u8]) -> Ending
    ensures { result ≡ ending_of lines.now }
{
    if ends_in_return(lines) {
        Ending::CrLf
    } else if has_return(lines) {
        Ending::Cr
    } else {
        Ending::Lf
    }
}
