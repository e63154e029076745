// The head of the next group: of the heads above the last one, the least, and of equal ones the first.
ghost use Rattle.std.specs.Prelude.{◌≡◌, ◌+◌, ◌<◌, length};
ghost use Rattle.subtag.specs.Sections.{tags_of, Led};
ghost use Rattle.canonical_order.specs.Section.{no_head, pick_from};
ghost use Rattle.canonical_order.specs.Heads.{head_of, better_by};

use subtag::{Subtag, scan};

// The head of a group: the place of its separator, the place behind it, and its number.
#[derive(Clone, Copy)]
pub struct Head {
    pub at: usize,
    pub next: usize,
    pub key: u64,
}

// No head yet, in a section that ends at n: every number is below this one.
#[tactic(auto, unfolding(crate::specs::Section::no_head))]
pub(crate) fn no_head(n: usize) -> Head
    ensures { result ≡ no_head n }
{
    Head {
        at: n,
        next: n,
        key: u64::MAX,
    }
}

// The head that the subtag at the place is; one of more than width bytes is none, with the number 0, which is above no other.
#[tactic(auto, unfolding(crate::specs::Heads::head_of))]
pub(crate) fn head_of(t: Subtag, width: usize, at: usize) -> Head
    requires { at + t.len < 4096 }
    ensures { result ≡ head_of width at t }
{
    Head {
        at,
        next: at + 1 + t.len,
        key: if t.len <= width { t.key } else { 0 },
    }
}

// The better of best and another head: the lesser of those above last, and of equal ones best.
#[tactic(auto, unfolding(crate::specs::Heads::better_by))]
pub(crate) fn better(best: Head, last: u64, head: Head) -> Head
    ensures { result ≡ better_by last head best }
{
    if last < head.key && head.key < best.key {
        head
    } else {
        best
    }
}

// The first of the least heads above last; a head is a subtag of at most width bytes.
pub(crate) fn next_above(s: &[u8], width: usize, last: u64) -> Head
    requires { Led s.now × (length s.now < 4096) }
    ensures { result ≡ pick_from width last 0 (no_head (length s.now)) (tags_of s.now) }
{
    let mut best = no_head(s.len());
    let mut at = 0;
    // a step is as long as its subtag
    while at < s.len() {
        let start = at + 1;
        let head = head_of(scan(&s[start..]), width, at);
        best = better(best, last, head);
        at = head.next;
    }
    best
}
