// One subtag through the alias table: the key of its lookup is the kind's name, a tab and the subtag in canonical case.
ghost use Rattle.std.specs.Prelude.{◌≡◌, map, ◌+◌, ◌≤◌, length, drop};
ghost use Rattle.standard.specs.Tag.{pick};
ghost use Rattle.standard.specs.Reading.{optional};
ghost use Rattle.standard.specs.Table.{lookup, rows};
ghost use Rattle.byte_string.specs.Strings.{Writes};
ghost use Rattle.subtag.specs.Bytes.{normal_byte, cased};
ghost use Rattle.subtag.specs.Sections.{led};
ghost use Rattle.aliases.specs.Replaced.{replaced_by, aliased_part};

use byte_string::put;
use subtag::put_cased;
use table::hints::IndexedTable;

// Writes the given subtag in its case, or where none is given the one that an alias brought in.
fn put_first(given: &[u8], count: usize, brought: &[u8], out: &mut [u8], at: usize) -> usize
    requires { (at + length given.now ≤ length out.old) × (at + length brought.now ≤ length out.old) }
    ensures { let out' = out.exit.now in let out = out.entry.now in let given = given.entry.now in let brought = brought.entry.now in
        Writes out at (pick (cased count (map normal_byte given)) brought) result out' }
{
    if given.is_empty() {
        put(brought, out, at)
    } else {
        put_cased(given, count, out, at)
    }
}

// What the aliases make of a subtag, which stands from skip on in the key of its lookup: the row's value, or the subtag itself.
fn replaced<'a>(key: &'a [u8], skip: usize, aliases: IndexedTable<'a>) -> &'a [u8]
    requires { skip ≤ length key.now }
    ensures { let key = key.entry.now in result.now ≡ replaced_by (lookup (rows aliases.entry.rows.now) key) (drop skip key) }
{
    match aliases.lookup(key) {
        Some(value) => value,
        None => &key[skip..],
    }
}

// Writes what the aliases make of a subtag.
pub fn put_replaced(
    key: &[u8],
    skip: usize,
    aliases: IndexedTable,
    out: &mut [u8],
    at: usize,
) -> usize
    requires { let key = key.now in
        (skip ≤ length key) × (at + length (replaced_by (lookup (rows aliases.rows.now) key) (drop skip key)) ≤ length out.old) }
    ensures { let out' = out.exit.now in let out = out.entry.now in let aliases = aliases.entry.rows.now in let key = key.entry.now in
        Writes out at (replaced_by (lookup (rows aliases) key) (drop skip key)) result out' }
{
    put(replaced(key, skip, aliases), out, at)
}

// Writes a subtag with its separator; nothing for an absent one.
fn put_led(src: &[u8], out: &mut [u8], at: usize) -> usize
    requires { at + length (led (optional src.now)) ≤ length out.old }
    ensures { Writes out.old at (led (optional src.now)) result out.new }
{
    if src.is_empty() {
        return at;
    }
    out[at] = b'-';
    put(src, out, at + 1)
}

// Writes a script, a region or a variant with its separator: the given one, or the one that an alias brought in, then
// what the aliases of its kind make of it; nothing where there is none.
pub fn write_aliased(
    given: &[u8],
    count: usize,
    brought: &[u8],
    name: &[u8],
    aliases: IndexedTable,
    out: &mut [u8],
    at: usize,
) -> usize
    requires { let given = given.now in let brought = brought.now in let name = name.now in let aliases = aliases.rows.now in
        (length given ≤ 8) × (length brought ≤ 8) × (length name ≤ 9)
        × (at + length (aliased_part aliases name (pick (cased count (map normal_byte given)) brought)) ≤ length out.old) }
    ensures { let out' = out.exit.now in let out = out.entry.now in let aliases = aliases.entry.rows.now in let name = name.entry.now in
        let given = given.entry.now in let brought = brought.entry.now in
        Writes out at (aliased_part aliases name (pick (cased count (map normal_byte given)) brought)) result out' }
{
    let mut key = [0; 32];
    let skip = put(name, &mut key, 0);
    let end = put_first(given, count, brought, &mut key, skip);
    if end <= skip {
        return at;
    }
    put_led(replaced(&key[..end], skip, aliases), out, at)
}
