// Inner. Bytes and subtags: the class of a byte, which one match decides and everything else goes by; letter case; the
// subtag at the front of what is left of an identifier, and what it can be.
#![tactic(auto)]

ghost use Rattle.std.specs.Prelude.{◌≡◌, map, ◌+◌, ◌≤◌, ◌<◌, length};
ghost use Rattle.std.proofs.lemmas.List.Edits.{sets};
ghost use Rattle.standard.specs.Tag.{head_tag};
ghost use Rattle.standard.specs.Grammar.{lower_byte, upper_byte, separator, small, capital, digit as digitByte};
ghost use Rattle.standard.specs.Reading.{split};
ghost use Rattle.subtag.specs.Bytes.{class_of, is_small, is_capital, is_digit, is_separator, is_other, letter_of, digit_of, normal_byte, cased, cased_byte};
ghost use Rattle.subtag.specs.Subtags.{first_byte, subtag_of};
ghost use Rattle.subtag.specs.Kinds.{language_from, kind_from, kind_is, keyword_from, field_from};

// What a byte can be.
#[derive(Clone, Copy, PartialEq, Eq)]
pub enum Class {
    Small,
    Capital,
    Digit,
    Separator,
    Other,
}

// Whether a byte is a letter, a digit or a separator: nothing else decides it.
pub fn class_of(b: u8) -> Class
    ensures { result ≡ class_of b }
{
    match b {
        b'A'..=b'Z' => Class::Capital,
        b'a'..=b'z' => Class::Small,
        b'0'..=b'9' => Class::Digit,
        b'-' | b'_' => Class::Separator,
        _ => Class::Other,
    }
}

pub fn is_separator(b: u8) -> bool
    ensures { result ≡ separator b }
{
    class_of(b) == Class::Separator
}

pub fn is_small(b: u8) -> bool
    ensures { result ≡ small b }
{
    class_of(b) == Class::Small
}

pub fn is_capital(b: u8) -> bool
    ensures { result ≡ capital b }
{
    class_of(b) == Class::Capital
}

pub fn is_digit(b: u8) -> bool
    ensures { result ≡ digitByte b }
{
    class_of(b) == Class::Digit
}

pub fn lower(b: u8) -> u8
    ensures { result ≡ lower_byte b }
{
    lowered(class_of(b), b)
}

// A byte of the class k in lower case.
fn lowered(k: Class, b: u8) -> u8
    requires { k ≡ class_of b }
    ensures { result ≡ lower_byte b }
{
    if k == Class::Capital { b + 32 } else { b }
}

pub(crate) fn upper(b: u8) -> u8
    ensures { result ≡ upper_byte b }
{
    if is_small(b) { b - 32 } else { b }
}

// In lower case; a separator as '-'.
pub(crate) fn normalise(b: u8) -> u8
    ensures { result ≡ normal_byte b }
{
    let k = class_of(b);
    if k == Class::Separator {
        b'-'
    } else {
        lowered(k, b)
    }
}

// 1 for a letter.
fn letter(k: Class) -> usize
    ensures { result ≡ letter_of k }
{
    usize::from(matches!(k, Class::Small | Class::Capital))
}

// 1 for a digit.
fn digit(k: Class) -> usize
    ensures { result ≡ digit_of k }
{
    usize::from(k == Class::Digit)
}

// A subtag: its length; how many of its bytes are letters and digits; its first byte in lower case, 0 where it has none;
// and its first eight bytes in lower case as a number, the first one highest, filled up with zeros. The order of subtags
// is the order of these numbers.
#[derive(Clone, Copy)]
pub struct Subtag {
    pub len: usize,
    pub letters: usize,
    pub digits: usize,
    pub first: u8,
    pub key: u64,
}

// The first byte of the subtag at the front of rest, or 0.
fn first_of(rest: &[u8]) -> u8
    ensures { result ≡ first_byte (head_tag (split rest.now)) }
{
    match rest {
        [b, ..] if !is_separator(*b) => lower(*b),
        _ => 0,
    }
}

// The subtag at the front of rest, up to the next separator or the end.
pub fn scan(rest: &[u8]) -> Subtag
    ensures { result ≡ subtag_of (head_tag (split rest.now)) }
{
    let first = first_of(rest);
    let mut letters: usize = 0;
    let mut digits: usize = 0;
    let mut key: u64 = 0;
    let mut weight: u64 = 1 << 56;
    let mut len: usize = 0;
    for &b in rest {
        let k = class_of(b);
        if k == Class::Separator {
            break;
        }
        letters += letter(k);
        digits += digit(k);
        key += u64::from(lowered(k, b)) * weight;
        weight /= 256;
        len += 1;
    }
    Subtag {
        len,
        letters,
        digits,
        first,
        key,
    }
}

// The byte at the index i, of which the first count are to be capitals.
pub fn recase(b: u8, i: usize, count: usize) -> u8
    ensures { result ≡ cased_byte i count b }
{
    if i < count { upper(b) } else { b }
}

// Writes src in lower case but for its first count bytes, which become capitals: one for title case, all for upper case.
pub fn put_cased(src: &[u8], count: usize, out: &mut [u8], at: usize) -> usize
    requires { at + length src.now ≤ length out.old }
    ensures { (result ≡ at + length src.now) × (out.new ≡ sets out.old at (cased count (map normal_byte src.now))) }
{
    for i in 0..src.len() {
        out[at + i] = recase(normalise(src[i]), i, count);
    }
    at + src.len()
}

// Writes src at the place at, in lower case and with the separator '-', and gives the next place.
pub fn put_normalised(src: &[u8], out: &mut [u8], at: usize) -> usize
    requires { at + length src.now ≤ length out.old }
    ensures { (result ≡ at + length src.now) × (out.new ≡ sets out.old at (map normal_byte src.now)) }
{
    put_cased(src, 0, out, at)
}

// What a subtag after the language can be; no two at once.
#[derive(Clone, Copy, PartialEq, Eq)]
pub enum Kind {
    Script,
    Region,
    Variant,
    Neither,
}

// A language: 2, 3 or 5 to 8 letters.
pub fn is_language(t: Subtag) -> bool
    ensures { result ≡ language_from t }
{
    matches!(t.len, 2 | 3 | 5..=8) && t.letters == t.len
}

// A script is 4 letters, a region 2 letters or 3 digits, a variant 5 to 8 bytes or 4 that begin with a digit.
pub fn kind_of(t: Subtag) -> Kind
    ensures { kind_is result ≡ kind_from t }
{
    match t.len {
        2 if t.letters == 2 => Kind::Region,
        3 if t.digits == 3 => Kind::Region,
        4 if t.letters == 4 => Kind::Script,
        4 if is_digit(t.first) => Kind::Variant,
        5..=8 => Kind::Variant,
        _ => Kind::Neither,
    }
}

// The key of a keyword: a letter or digit, then a letter.
pub fn is_keyword_key(t: Subtag) -> bool
    ensures { result ≡ keyword_from t }
{
    t.len == 2 && t.letters == if is_small(t.first) { 2 } else { 1 }
}

// The key of a field: a letter, then a digit.
pub fn is_field_key(t: Subtag) -> bool
    ensures { result ≡ field_from t }
{
    t.len == 2 && is_small(t.first) && t.digits == 1
}
