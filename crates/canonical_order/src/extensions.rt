// Extensions in canonical order.
ghost use Rattle.std.specs.Prelude.{◌+◌, ◌≤◌, ◌<◌, length};
ghost use Rattle.standard.specs.Grammar.{arrange_keywords, arrange_one, arrange_part, arrange_fields, grouped};
ghost use Rattle.byte_string.specs.Strings.{Writes, WritesWithin};
ghost use Rattle.subtag.specs.Sections.{tags_of, Led, Plain, led};
ghost use Rattle.canonical_order.specs.Section.{Longer, Each, Arrangeable, is_head, arranged_tags, PartOk, FieldsOk};

use crate::choice::next_above;
use crate::section::{group_end, is_variant, place_of};
use crate::sorted::write_sorted;
use subtag::{is_field_key, lower, put_normalised, scan};

// Writes the attributes and keywords of `u`, a section whose subtags have two bytes or more.
fn write_keywords(s: &[u8], out: &mut [u8], at: usize) -> usize
    requires { (at + length s.now ≤ length out.old) × (length s.now < 4000) × Led s.now × Plain (tags_of s.now) × Longer (tags_of s.now) }
    ensures { Writes out.old at (led (arrange_keywords (tags_of s.now))) result out.new }
{
    let k = group_end(s, 2, 0);
    let p = write_sorted(&s[..k], 8, false, out, at);
    write_sorted(&s[k..], 2, true, out, p)
}

// Writes one extension, its singleton first.
fn write_extension(g: &[u8], out: &mut [u8], at: usize) -> usize
    requires { (at + length g.now ≤ length out.old) × (length g.now < 4000) × Led g.now × Plain (tags_of g.now) × Arrangeable (tags_of g.now) }
    ensures { Writes out.old at (led (arrange_one (tags_of g.now))) result out.new }
{
    let b = lower(g[1]);
    let put = put_normalised(&g[..2], out, at);
    if b == b'u' {
        return write_keywords(&g[2..], out, put);
    }
    if b == b't' {
        return write_fields(&g[2..], out, put);
    }
    put_normalised(&g[2..], out, put)
}

// Writes the extensions of s in ascending order of their singletons.
pub fn write_extensions(s: &[u8], out: &mut [u8], at: usize) -> usize
    requires { let s = s.now in
        (at + length s ≤ length out.old) × (length s < 4000) × Led s × Plain (tags_of s)
        × Each Arrangeable (grouped (is_head 1) (tags_of s)).groups }
    ensures { let out' = out.exit.now in let s = s.entry.now in let out = out.entry.now in
        WritesWithin (at + length s) out at (led (arranged_tags s)) result out' }
{
    let mut put = at;
    let mut last = 0;
    // from head to head, each the least above the one before
    loop {
        let head = next_above(s, 1, last);
        if s.len() <= head.at {
            return put;
        }
        let end = group_end(s, 1, head.next);
        put = write_extension(&s[head.at..end], out, put);
        last = head.key;
    }
}

// Writes a language part: its variants in ascending order.
fn write_part(s: &[u8], out: &mut [u8], at: usize) -> usize
    requires { (at + length s.now ≤ length out.old) × (length s.now < 4000) × Led s.now × Plain (tags_of s.now) × PartOk (tags_of s.now) }
    ensures { Writes out.old at (led (arrange_part (tags_of s.now))) result out.new }
{
    if s.len() == 0 {
        return at;
    }
    let t = scan(&s[1..]);
    let len = t.len;
    let v = place_of(s, 1 + len, is_variant);
    let p = put_normalised(&s[..v], out, at);
    write_sorted(&s[v..], 8, false, out, p)
}

// Writes the language part and the fields of `t`.
fn write_fields(s: &[u8], out: &mut [u8], at: usize) -> usize
    requires { (at + length s.now ≤ length out.old) × (length s.now < 4000) × Led s.now × Plain (tags_of s.now) × FieldsOk (tags_of s.now) }
    ensures { Writes out.old at (led (arrange_fields (tags_of s.now))) result out.new }
{
    let k = place_of(s, 0, is_field_key);
    let p = write_part(&s[..k], out, at);
    write_sorted(&s[k..], 2, false, out, p)
}
