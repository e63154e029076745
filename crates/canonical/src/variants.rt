// The variants of the canonical form: replaced one by one, then in ascending order, of equal ones the first.
ghost use Rattle.std.specs.Prelude.{◌≡◌, [], ◌+◌, ◌≤◌, length};
ghost use Rattle.std.proofs.Math.Option.{none};
ghost use Rattle.std.proofs.lemmas.List.Edits.{sets};
ghost use Rattle.standard.specs.Identifier.{canonical_variants};
ghost use Rattle.standard.specs.Table.{tables_of, check, to_canonicalise};
ghost use Rattle.byte_string.specs.Strings.{Writes};
ghost use Rattle.subtag.specs.Sections.{tags_of, led, Led, Plain};
ghost use Rattle.canonical.specs.Variants.{resolved, EachVariant};

use crate::buffer::buffer;
use aliases::replace::write_aliased;
use canonical_order::sorted::write_sorted;
use subtag::scan;
use table::hints::IndexedTable;

// Writes what the aliases make of each variant of the section s, with its separator.
fn resolve_variants(s: &[u8], aliases: IndexedTable, out: &mut [u8]) -> usize
    requires { let tags = tags_of s.now in
        Led s.now × Plain tags × (length (resolved aliases.rows.now tags) ≤ length out.old) }
    ensures { let out' = out.exit.now in let made = resolved aliases.entry.rows.now (tags_of s.entry.now) in let out = out.entry.now in
        (result ≡ length made) × (out' ≡ sets out 0 made) }
{
    let mut at = 0;
    let mut end = 0;
    // a step is as long as its subtag
    while at < s.len() {
        let start = at + 1;
        let stop = start + scan(&s[start..]).len;
        end = write_aliased(&s[start..stop], 0, &[], b"variant\t", aliases, out, end);
        at = stop;
    }
    end
}

// Writes the variants of the canonical form, from those of the section s.
pub(crate) fn write_variants(s: &[u8], aliases: IndexedTable, out: &mut [u8], at: usize) -> usize
    requires { let s = s.now in
        Led s × Plain (tags_of s) × EachVariant (tags_of s) × (check to_canonicalise aliases.rows.now [] [] ≡ none) × (length s ≤ 255)
        × (at + 459 ≤ length out.old) }
    ensures { let out' = out.exit.now in let aliases = aliases.entry.rows.now in let s = s.entry.now in let out = out.entry.now in
        Writes out at (led (canonical_variants (tables_of aliases [] []) (tags_of s))) result out' }
{
    if s.is_empty() {
        return at;
    }
    let mut scratch = buffer();
    let m = resolve_variants(s, aliases, &mut scratch);
    write_sorted(&scratch[..m], 8, false, out, at)
}
