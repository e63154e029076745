// Inner. The entries of a bill that is being made, in two lent arrays: the keys in byte order, 32 bytes for each, its
// length first; and for each its members' marks and its deliveries, side by side. They are no array of structs, since
// `entries_from` of specs/Places, by which the contracts of a bill speak of them, reads two arrays of numbers.
#![tactic(auto)]

ghost use Rattle.std.specs.Prelude.{◌≡◌, true, List, ℕ, ◌+◌, ◌≤◌, ◌<◌, length};
ghost use Rattle.std.specs.Option.{IfSome, IfNone};
ghost use Rattle.standard.specs.Tag.{order};
ghost use Rattle.standard.specs.Delivery.{Bytes};
ghost use Rattle.bill_rules.specs.Bill.{Usage};
ghost use Rattle.bill_ledger.specs.Entries.{place_in, hit_at, insert_at, change_at, fresh, again, mark_of};
ghost use Rattle.bill_ledger.specs.Places.{is_lt, text_at, entries_from, KeyMore, CountsMore};
ghost use Rattle.bill_ledger.specs.Up.{Up, Few, Sized, Added, count_of};

use byte_string::{compare, put, same};

// The i-th key.
pub fn key_at(keys: &[u8], i: usize) -> &[u8]
    requires { (i < 512) × (length keys.now ≡ 16384) }
    ensures { let key = result.now in (key ≡ text_at keys.entry.now i) × (length key ≤ 31) }
{
    let start = 32 * i + 1;
    let len = (keys[32 * i] as usize).min(31);
    &keys[start..start + len]
}

// Is the i-th key below this one?
fn is_below(keys: &[u8], i: usize, key: &[u8]) -> bool
    requires { (i < 512) × (length keys.now ≡ 16384) }
    ensures { result ≡ is_lt (order (text_at keys.now i) key.now) }
{
    compare(key_at(keys, i), key).is_lt()
}

// How many of the n keys are below this one: a search by halves. By hand, since std's wants an element for each key, and
// a key is 32 bytes of the array.
fn place_of(keys: &[u8], n: usize, key: &[u8]) -> usize
    requires { (n ≤ 512) × (length keys.now ≡ 16384) }
    ensures { let keys = keys.entry.now in let key = key.entry.now in
        (result ≤ n) × ((cs : List ℕ) → Up (entries_from keys cs 0 n) → result ≡ place_in key (entries_from keys cs 0 n)) }
{
    let mut lo = 0;
    let mut hi = n;
    while lo < hi {
        let mid = lo + (hi - lo) / 2;
        if is_below(keys, mid, key) {
            lo = mid + 1;
        } else {
            hi = mid;
        }
    }
    lo
}

// Puts a key at the place at among the n keys.
fn insert_key(keys: &mut [u8], n: usize, at: usize, key: &[u8])
    requires { (n < 512) × (at ≤ n) × (length keys.old ≡ 16384) × (length key.now ≤ 31) }
    ensures { KeyMore keys.old keys.new n at key.now }
{
    let from = 32 * at;
    keys.copy_within(from..32 * n, from + 32);
    keys[from] = key.len() as u8;
    put(key, keys, from + 1);
}

// Puts the marks of a key's first usage at the place at among those of n keys.
fn insert_counts(counts: &mut [u64], n: usize, at: usize, marks: u64)
    requires { (n < 512) × (at ≤ n) × (length counts.old ≡ 1024) }
    ensures { CountsMore counts.old counts.new n at marks }
{
    let from = 2 * at;
    counts.copy_within(from..2 * n, from + 2);
    counts[from] = marks;
    counts[from + 1] = 1;
}

// Is the entry at the place the key's?
fn has_key(keys: &[u8], n: usize, at: usize, key: &[u8]) -> bool
    requires { (n ≤ 512) × (length keys.now ≡ 16384) }
    ensures { ((cs : List ℕ) → result ≡ hit_at key.now at (entries_from keys.now cs 0 n)) × (result ≡ true → at < n) }
{
    at < n && same(key_at(keys, at), key)
}

// One more usage of the key at the place.
fn change(counts: &mut [u64], at: usize, mark: u64)
    requires { (at < 512) × (length counts.old ≡ 1024) }
    ensures { (ks : Bytes) → (n : ℕ) → (u : Usage) → mark ≡ mark_of u.member → at < n → Few (entries_from ks counts.old 0 n)
        → entries_from ks counts.new 0 n ≡ change_at at (again u) (entries_from ks counts.old 0 n) }
{
    let i = 2 * at;
    counts[i] |= mark;
    counts[i + 1] = counts[i + 1].saturating_add(1);
}

// The first usage of a key, at the place.
fn insert(keys: &mut [u8], counts: &mut [u64], n: usize, at: usize, key: &[u8], mark: u64)
    requires { (n < 512) × (at ≤ n) × Sized keys.old counts.old × (length key.now ≤ 31) }
    ensures { let keys' = keys.exit.now in let counts' = counts.exit.now in let key = key.entry.now in let keys = keys.entry.now in
        let counts = counts.entry.now in
        Sized keys' counts'
        × ((u : Usage) → u.key ≡ key → mark ≡ mark_of u.member → entries_from keys' counts' 0 (n + 1) ≡ insert_at at (fresh u) (entries_from keys counts 0 n)) }
{
    insert_key(keys, n, at, key);
    insert_counts(counts, n, at, mark);
}

// The mark of a member.
fn mark_of(member: u8) -> u64
    requires { (1 ≤ member) × (member ≤ 64) }
    ensures { result ≡ mark_of member }
{
    1 << (member - 1)
}

// Adds a usage to the n entries, and answers how many there are then; none where there is no room, and nothing is written.
pub fn add(keys: &mut [u8], counts: &mut [u64], n: usize, member: u8, key: &[u8]) -> Option<usize>
    requires { (n ≤ 512) × Sized keys.old counts.old × (length key.now ≤ 31) × (1 ≤ member) × (member ≤ 64) }
    ensures { let keys' = keys.exit.now in let counts' = counts.exit.now in let key = key.entry.now in let keys = keys.entry.now in
        let counts = counts.entry.now in let held = entries_from keys counts 0 n in
        Sized keys' counts' × IfSome result (λ r. r ≤ 512)
        × ((u : Usage) → u.key ≡ key → u.member ≡ member → Up held → Few held → Added u held keys' counts' (count_of result))
        × IfNone result ((keys' ≡ keys) × (counts' ≡ counts)) }
{
    let mark = mark_of(member);
    let at = place_of(keys, n, key);
    if has_key(keys, n, at, key) {
        change(counts, at, mark);
        return Some(n);
    }
    if 512 <= n {
        return None;
    }
    insert(keys, counts, n, at, key, mark);
    Some(n + 1)
}
