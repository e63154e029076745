// Rows whose value has a subtag that aliases replace. Aliases are asked thousands of times whether a subtag is a key; hints
// answer nearly all of that without a search.
ghost use Rattle.std.specs.Prelude.{◌≡◌, true, ◌+◌, ◌≤◌, length};
ghost use Rattle.standard.specs.Table.{pieces, parse, is_three, alias_shape};
ghost use Rattle.row_shapes.specs.Shapes.{between};
ghost use Rattle.table_check.specs.Free.{free_three, own_tag, free_alias, is_threes, second_of};

use aliases::keys::is_key;
use row_shapes::aliases::{AliasKind, name_of};
use row_shapes::lsr::ends_of;
use table::hints::IndexedTable;

// What stands between the separator at a and the place b.
fn part(s: &[u8], a: usize, b: usize) -> &[u8]
    requires { b ≤ length s.now }
    ensures { result.now ≡ between s.now a b }
{
    if a < b { &s[a + 1..b] } else { &[] }
}

// Has a value no language, script or region that aliases replace?
fn value_free(aliases: IndexedTable, value: &[u8]) -> bool
    requires { is_three value.now ≡ true }
    ensures { result ≡ free_three aliases.entry.rows.now (parse value.now) }
{
    let three = ends_of(value);
    if is_key(aliases, AliasKind::Language, &value[..three.language]) {
        return false;
    }
    if is_key(
        aliases,
        AliasKind::Script,
        part(value, three.language, three.script),
    ) {
        return false;
    }
    !is_key(
        aliases,
        AliasKind::Region,
        part(value, three.script, value.len()),
    )
}

// The subtag of an alias value of the row's own kind.
fn own(kind: AliasKind, value: &[u8]) -> &[u8]
    ensures { result.now ≡ own_tag kind value.now }
{
    match kind {
        AliasKind::Language => {
            let end = byte_string::end_of(value, b'-', 0);
            &value[..end]
        }
        AliasKind::Script | AliasKind::Region | AliasKind::Variant => value,
    }
}

// Is the own subtag of an alias row's value no key of its kind?
pub(crate) fn alias_free(aliases: IndexedTable, line: &[u8]) -> bool
    requires { alias_shape (pieces 9 line.now) ≡ true }
    ensures { result ≡ free_alias aliases.entry.rows.now (pieces 9 line.now) }
{
    let name = name_of(line);
    let tab = byte_string::end_of(line, b'\t', name.end + 1);
    let value = &line[tab + 1..];
    match name.kind {
        Some(kind) => !is_key(aliases, kind, own(kind, value)),
        None => true,
    }
}

// Has the value of a likely or parent row nothing that aliases replace?
pub(crate) fn two_free(aliases: IndexedTable, line: &[u8]) -> bool
    requires { is_threes (pieces 9 line.now) ≡ true }
    ensures { result ≡ free_three aliases.entry.rows.now (parse (second_of (pieces 9 line.now))) }
{
    let tab = byte_string::end_of(line, b'\t', 0);
    value_free(aliases, &line[tab + 1..])
}
