// Walks over a section: a part of an identifier in which each subtag has its separator before it. An empty section has
// no subtags.
ghost use Rattle.std.specs.Prelude.{◌≡◌, Bool, ◌+◌, ◌≤◌, length, drop};
ghost use Rattle.subtag.specs.declared.Subtag.{Subtag};
ghost use Rattle.subtag.specs.Sections.{tags_of, Led};
ghost use Rattle.canonical_order.specs.Section.{end_from, place_of, of_variant};

use subtag::{Kind, Subtag, kind_of, scan};

// The place of the first subtag at or after `from` that passes the test, or the end.
pub(crate) fn place_of<F: Fn(Subtag) -> bool>(s: &[u8], from: usize, test: F) -> usize
    requires callable { F.IsAlwaysCallable test }
    requires begins { (from ≤ length s.now) × Led (drop from s.now) }
    ensures { let s = s.entry.now in
        ((p : Subtag → Bool) → ((t : Subtag) → (r : Bool) → F.post test t r → r ≡ p t) → result ≡ place_of p from (tags_of (drop from s))) }
{
    let mut at = from;
    // a step is as long as its subtag
    while at < s.len() {
        let start = at + 1;
        let t = scan(&s[start..]);
        if test(t) {
            return at;
        }
        at = start + t.len;
    }
    at
}

// The end of the group whose head ends at `from`: the place of the next subtag of at most width bytes.
pub(crate) fn group_end(s: &[u8], width: usize, from: usize) -> usize
    requires { (from ≤ length s.now) × Led (drop from s.now) }
    ensures { result ≡ end_from width from (tags_of (drop from s.now)) }
{
    place_of(s, from, |t| t.len <= width)
}

// Is the subtag a variant?
#[tactic(auto, unfolding(crate::specs::Section::of_variant, standard::specs::Grammar::variant_kind))]
pub(crate) fn is_variant(t: Subtag) -> bool
    ensures { result ≡ of_variant t }
{
    matches!(kind_of(t), Kind::Variant)
}
