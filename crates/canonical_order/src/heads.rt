// The subtags of a longer section scanned once, so that each choice of the next head goes over numbers and not over bytes.
ghost use Rattle.std.specs.Prelude.{◌≡◌, ◌≤◌, length, take};
ghost use Rattle.subtag.specs.Sections.{tags_of, Led, Plain};
ghost use Rattle.canonical_order.specs.Section.{no_head};
ghost use Rattle.canonical_order.specs.Heads.{heads_from, pick_by};

use crate::choice::{Head, better, head_of, no_head};
use subtag::scan;

// Room for the heads of 256 bytes.
pub(crate) fn no_heads() -> [Head; 128]
    ensures { length result ≡ 128 }
{
    [Head {
        at: 0,
        next: 0,
        key: 0,
    }; 128]
}

// Writes the head that each subtag of s is, and gives how many there are.
pub(crate) fn scan_all(s: &[u8], width: usize, heads: &mut [Head]) -> usize
    requires { Led s.now × Plain (tags_of s.now) × (length s.now ≤ 256) × (length heads.old ≡ 128) }
    ensures { (result ≤ 128) × (take result heads.new ≡ heads_from width 0 (tags_of s.now)) × (length heads.new ≡ 128) }
{
    let mut count = 0;
    let mut at = 0;
    // a step is as long as its subtag
    while at < s.len() {
        let start = at + 1;
        let head = head_of(scan(&s[start..]), width, at);
        heads[count] = head;
        count += 1;
        at = head.next;
    }
    count
}

// The first of the least heads above last, in a section that ends at n.
pub(crate) fn next_of(heads: &[Head], n: usize, last: u64) -> Head
    ensures { result ≡ pick_by last (no_head n) heads.now }
{
    let mut best = no_head(n);
    for head in heads {
        best = better(best, last, *head);
    }
    best
}
