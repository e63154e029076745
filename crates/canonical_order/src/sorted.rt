// The groups of a section in ascending order of their heads, by selection: one mechanism for variants, attributes,
// keywords and fields.
ghost use Rattle.std.specs.Prelude.{◌≡◌, ℕ, ◌+◌, ◌≤◌, ◌<◌, length};
ghost use Rattle.byte_string.specs.Strings.{Writes};
ghost use Rattle.subtag.specs.Sections.{tags_of, Led, Plain};
ghost use Rattle.canonical_order.specs.declared.choice.Head.{Head};
ghost use Rattle.canonical_order.specs.Section.{end_without, trimmed_end, no_head, pick_from, sorted_bytes};

use crate::choice::{Head, next_above};
use crate::heads::{next_of, no_heads, scan_all};
use crate::section::group_end;
use subtag::{Subtag, put_normalised, scan};

// The end of a group, whose head ends at next: with trim, before a type that is exactly `true`.
fn trimmed_end(s: &[u8], trim: bool, next: usize, end: usize) -> usize
    requires { (next ≤ end) × (end ≤ length s.now) × (length s.now < 4000) }
    ensures { result ≡ trimmed_end trim s.now next end }
{
    if !trim || end <= next {
        return end;
    }
    let start = next + 1;
    without(scan(&s[start..]), next, end)
}

#[tactic(auto, unfolding(crate::specs::Section::end_without))]
fn without(t: Subtag, next: usize, end: usize) -> usize
    requires { next + t.len < 4096 }
    ensures { result ≡ end_without t next end }
{
    if next + 1 + t.len == end && t.key == TRUE {
        next
    } else {
        end
    }
}

const TRUE: u64 = 8390898132396802048;

// Writes the groups of s in ascending order of their heads, of several with one head the first. `next` chooses the least head
// above the last one.
fn write_groups<F: Fn(u64) -> Head>(
    s: &[u8],
    width: usize,
    trim: bool,
    next: F,
    out: &mut [u8],
    at: usize,
) -> usize
    requires callable { F.IsAlwaysCallable next }
    requires least { let n = length s.now in let tags = tags_of s.now in
        ((last : ℕ) → (head : Head) → F.post next last head → head ≡ pick_from width last 0 (no_head n) tags) }
    requires section { (at + length s.now ≤ length out.old) × (length s.now < 4000) × Led s.now × Plain (tags_of s.now) }
    ensures { Writes out.old at (sorted_bytes width trim s.now) result out.new }
{
    let mut put = at;
    let mut last = 0;
    // from head to head, each the least above the one before
    loop {
        let head = next(last);
        if s.len() <= head.at {
            return put;
        }
        let end = group_end(s, width, head.next);
        let stop = trimmed_end(s, trim, head.next, end);
        put = put_normalised(&s[head.at..stop], out, put);
        last = head.key;
    }
}

// The same for at most 256 bytes: each subtag is scanned once, and its head kept.
fn write_keyed(s: &[u8], width: usize, trim: bool, out: &mut [u8], at: usize) -> usize
    requires { (at + length s.now ≤ length out.old) × (length s.now < 4000) × Led s.now × Plain (tags_of s.now) × (length s.now ≤ 256) }
    ensures { Writes out.old at (sorted_bytes width trim s.now) result out.new }
{
    let mut room = no_heads();
    let count = scan_all(s, width, &mut room);
    let heads = &room[..count];
    write_groups(
        s,
        width,
        trim,
        |last| next_of(heads, s.len(), last),
        out,
        at,
    )
}

// Writes the groups of s in ascending order of their heads. Few subtags are sooner scanned again for each choice than kept.
pub fn write_sorted(s: &[u8], width: usize, trim: bool, out: &mut [u8], at: usize) -> usize
    requires { (at + length s.now ≤ length out.old) × (length s.now < 4000) × Led s.now × Plain (tags_of s.now) }
    ensures { Writes out.old at (sorted_bytes width trim s.now) result out.new }
{
    if 24 <= s.len() && s.len() <= 256 {
        return write_keyed(s, width, trim, out, at);
    }
    write_groups(s, width, trim, |last| next_above(s, width, last), out, at)
}
