// Inner. Byte strings: their order, the first place of a byte, and bytes written at a place.
#![tactic(auto)]

ghost use Rattle.std.specs.Prelude.{◌≡◌, ◌+◌, ◌≤◌, ◌<◌, length};
ghost use Rattle.standard.specs.Tag.{order, same as sameTag};
ghost use Rattle.byte_string.specs.Strings.{order_of, end_of, Writes};

use std::cmp::Ordering;

// Writes src at the place at, and gives the next place.
pub fn put(src: &[u8], out: &mut [u8], at: usize) -> usize
    requires { at + length src.now ≤ length out.old }
    ensures { Writes out.old at src.now result out.new }
{
    // by the byte, and not by `copy_from_slice`, which calls memmove: a host in C need not have that
    for (i, b) in src.iter().enumerate() {
        out[at + i] = *b;
    }
    at + src.len()
}

// Are the two byte strings equal?
pub fn same(a: &[u8], b: &[u8]) -> bool
    ensures { result ≡ sameTag a.now b.now }
{
    a == b
}

// a against b, by unsigned bytes from the front.
pub fn compare(a: &[u8], b: &[u8]) -> Ordering
    ensures { order_of result ≡ order a.now b.now }
{
    a.cmp(b)
}

// The index of the first byte b at or after `from`, or the length.
pub fn end_of(s: &[u8], b: u8, from: usize) -> usize
    ensures { result ≡ end_of b s.now from }
{
    let n = s.len();
    if n <= from {
        return n;
    }
    let last = n - 1;
    let mut i = from;
    // by hand, and not by `position`: two bytes a round, so half as many ends of rounds to test on a hot path
    while i < last {
        if s[i] == b {
            return i;
        }
        let next = i + 1;
        if s[next] == b {
            return next;
        }
        i = next + 1;
    }
    if i < n {
        if s[i] == b {
            return i;
        }
    }
    n
}
