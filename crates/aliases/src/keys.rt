// Is a subtag a key of the aliases? Hints answer nearly all of that without a search.
ghost use Rattle.std.specs.Prelude.{◌≡◌, ◌++◌, ◌≤◌, ◌<◌, length};
ghost use Rattle.std.proofs.lemmas.List.Edits.{sets};
ghost use Rattle.table.specs.Hints.{slot_of, Leads};
ghost use Rattle.aliases.specs.Keys.{kind_key, is_key};

use row_shapes::aliases::AliasKind;
use table::hints::{IndexedTable, find_by, slot_from};

// The slot of the kind's name and a tab, from which the slots of its keys go on.
fn seed(kind: AliasKind) -> usize
    ensures { (result ≡ slot_of (kind_key kind)) × (result < 16384) }
{
    match kind {
        AliasKind::Language => 12365,
        AliasKind::Script => 10654,
        AliasKind::Region => 11149,
        AliasKind::Variant => 7454,
    }
}

// Writes the kind's name and a tab.
fn put_kind(kind: AliasKind, out: &mut [u8]) -> usize
    requires { length out.old ≡ 32 }
    ensures { (result ≡ length (kind_key kind)) × (out.new ≡ sets out.old 0 (kind_key kind)) }
{
    match kind {
        AliasKind::Language => byte_string::put(b"language\t", out, 0),
        AliasKind::Script => byte_string::put(b"script\t", out, 0),
        AliasKind::Region => byte_string::put(b"region\t", out, 0),
        AliasKind::Variant => byte_string::put(b"variant\t", out, 0),
    }
}

// Is there an alias of the kind with this key, which has this hint?
fn search(aliases: IndexedTable, hint: usize, kind: AliasKind, tag: &[u8]) -> bool
    requires { (length tag.now ≤ 16) × Leads aliases.rows.now (kind_key kind ++ tag.now) hint }
    ensures { result ≡ is_key aliases.entry.rows.now kind tag.now }
{
    let mut key = [0; 32];
    let start = put_kind(kind, &mut key);
    let end = byte_string::put(tag, &mut key, start);
    find_by(aliases.rows, hint, &key[..end]).is_some()
}

// Is there an alias of the kind with this key? The hint 0 is a no, before any key is written.
pub fn is_key(aliases: IndexedTable, kind: AliasKind, tag: &[u8]) -> bool
    requires { length tag.now ≤ 16 }
    ensures { result ≡ is_key aliases.entry.rows.now kind tag.now }
{
    let hint = aliases.hint(slot_from(seed(kind), tag));
    hint != 0 && search(aliases, hint, kind, tag)
}
