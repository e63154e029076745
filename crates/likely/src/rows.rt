// Rows of a likely table, found by parts of the three subtags.
ghost use Rattle.std.specs.Prelude.{◌≡◌, leb};
ghost use Rattle.standard.specs.Table.{lookup, rows};
ghost use Rattle.table.specs.Lines.{value_is};
ghost use Rattle.likely.specs.Parts.{joined_parts, parts_length, Ready, shorter_value, row_value};
ghost use Rattle.likely.specs.Lent.{parts_is};

use crate::parts::Parts;
use byte_string::put;
use table::hints::HintedTable;

// Have the parts room in a key? All keys of a table that passed the check have.
fn has_room(parts: &Parts) -> bool
    ensures { result ≡ leb (parts_length (parts_is parts.now)) 32 }
{
    let language = parts.language.len();
    language
        .saturating_add(parts.script.len())
        .saturating_add(parts.region.len())
        <= 32
}

// The value of the row whose key is the parts, one after the other, as a part of the lent table.
fn find<'a>(likely: &HintedTable<'a>, parts: &Parts) -> Option<&'a [u8]>
    ensures { let p = parts_is parts.now in let likely = likely.entry.now in
        Ready likely.rows.now likely.hints.now p → value_is result ≡ lookup (rows likely.rows.now) (joined_parts p) }
{
    if !has_room(parts) {
        return None;
    }
    let mut key = [0; 32];
    let a = put(parts.language, &mut key, 0);
    let b = put(parts.script, &mut key, a);
    let c = put(parts.region, &mut key, b);
    likely.lookup(&key[..c])
}

// Where language-script-region has no row: language-script, language-region, language.
fn find_shorter<'a>(likely: &HintedTable<'a>, parts: &Parts) -> Option<&'a [u8]>
    ensures { let p = parts_is parts.now in let likely = likely.entry.now in
        Ready likely.rows.now likely.hints.now p → value_is result ≡ shorter_value likely.rows.now p }
{
    let by_script = Parts {
        region: b"",
        ..*parts
    };
    if let Some(value) = find(likely, &by_script) {
        return Some(value);
    }
    let by_region = Parts {
        script: b"",
        ..*parts
    };
    if let Some(value) = find(likely, &by_region) {
        return Some(value);
    }
    let alone = Parts {
        script: b"",
        region: b"",
        ..*parts
    };
    find(likely, &alone)
}

// The value of the first row for the parts, as a part of the lent table. Where script or region is missing, the key of
// the language alone is all that is left to try.
pub(crate) fn find_row<'a>(likely: &HintedTable<'a>, parts: &Parts) -> Option<&'a [u8]>
    ensures { let p = parts_is parts.now in let likely = likely.entry.now in
        Ready likely.rows.now likely.hints.now p → value_is result ≡ row_value likely.rows.now p }
{
    if let Some(value) = find(likely, parts) {
        return Some(value);
    }
    if parts.script.is_empty() || parts.region.is_empty() {
        let alone = Parts {
            script: b"",
            region: b"",
            ..*parts
        };
        return find(likely, &alone);
    }
    find_shorter(likely, parts)
}
