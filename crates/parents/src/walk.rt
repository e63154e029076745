// The walk of parents that the check takes (14), over the texts of the parent table.
ghost use Rattle.std.specs.Prelude.{◌≡◌, ◌≤◌, length};
ghost use Rattle.standard.specs.Table.{rows, parent_shape, Pass};
ghost use Rattle.table.specs.Lines.{value_is};
ghost use Rattle.parents.specs.Walk.{cut, ValueOk, OwnRow, ShorterIs, ParentIs, reaches_from};

use byte_string::same;
use row_shapes::lsr::ends_of;
use table::hints::{IndexedTable, opens, slot_from};

// The text without its last subtag; none for a language alone, whose parent is `und`.
fn shorter(text: &[u8]) -> Option<&[u8]>
    requires { ValueOk text.now }
    ensures { ShorterIs text.entry.now (value_is result) }
{
    let ends = ends_of(text);
    if ends.script + 1 < text.len() {
        Some(&text[..ends.script])
    } else if ends.language + 1 < ends.script {
        Some(&text[..ends.language])
    } else {
        None
    }
}

// The parent of the text, the table's value if there is a row; none where it is `und` with no row.
fn parent_of<'a>(parents: IndexedTable<'a>, text: &'a [u8]) -> Option<&'a [u8]>
    requires { Pass parent_shape (rows parents.rows.now) × ValueOk text.now }
    ensures { ParentIs parents.entry.rows.now text.entry.now (value_is result) }
{
    match parents.lookup(text) {
        Some(value) => Some(value),
        None => shorter(text),
    }
}

// The parent of the key of the row from i to e, which ends at the tab k. Where the key's hint names this very row, its
// value needs no search.
fn own_parent<'a>(parents: IndexedTable<'a>, i: usize, k: usize, e: usize) -> Option<&'a [u8]>
    requires { Pass parent_shape (rows parents.rows.now) × OwnRow parents.rows.now i k e }
    ensures { let p = parents.entry.rows.now in ParentIs p (cut p i k) (value_is result) }
{
    let key = &parents.rows[i..k];
    let hint = parents.hint(slot_from(0, key));
    if hint == i + 1 && hint <= 32767 && opens(parents.rows, i) {
        return Some(&parents.rows[k + 1..e]);
    }
    parent_of(parents, key)
}

// Is the walk of parents from the text at `und` within so many steps?
fn reaches_root<'a>(parents: IndexedTable<'a>, from: &'a [u8], steps: usize) -> bool
    requires { Pass parent_shape (rows parents.rows.now) × ValueOk from.now }
    ensures { result ≡ reaches_from parents.entry.rows.now steps from.entry.now }
{
    let mut text = from;
    for _step in 0..steps {
        if same(text, b"und") {
            return true;
        }
        let Some(parent) = parent_of(parents, text) else {
            return true;
        };
        text = parent;
    }
    same(text, b"und")
}

// Is the walk from the key of the row from i to e, which ends at the tab k, at `und` within 8 steps?
pub fn key_reaches_root(parents: IndexedTable, i: usize, k: usize, e: usize) -> bool
    requires { Pass parent_shape (rows parents.rows.now) × OwnRow parents.rows.now i k e }
    ensures { let p = parents.entry.rows.now in result ≡ reaches_from p 8 (cut p i k) }
{
    if same(&parents.rows[i..k], b"und") {
        return true;
    }
    match own_parent(parents, i, k, e) {
        Some(text) => reaches_root(parents, text, 7),
        None => true,
    }
}
