// The rows of the alias table: a kind, a key and a value.
ghost use Rattle.std.specs.Prelude.{◌≡◌, Some, take};
ghost use Rattle.byte_string.specs.Strings.{end_of};
ghost use Rattle.row_shapes.specs.Rows.{kind_named, language_alias, shape_by, AliasIs, LineIs};

use crate::Table;
use crate::lsr::three_of;
use crate::pairs::Line;
use crate::subtags::{is_language, is_region, is_script, is_variant};

// The kind of an alias.
#[derive(Clone, Copy, PartialEq, Eq)]
pub enum AliasKind {
    Language,
    Script,
    Region,
    Variant,
}

// The kind of that name, if there is one.
#[tactic(auto, unfolding(crate::specs::Rows::kind_named))]
pub(crate) fn kind_named(name: &[u8]) -> Option<AliasKind>
    ensures { result ≡ kind_named name.now }
{
    if byte_string::same(name, b"language") {
        Some(AliasKind::Language)
    } else if byte_string::same(name, b"script") {
        Some(AliasKind::Script)
    } else if byte_string::same(name, b"region") {
        Some(AliasKind::Region)
    } else if byte_string::same(name, b"variant") {
        Some(AliasKind::Variant)
    } else {
        None
    }
}

// A language other than `und`, and language, perhaps script, perhaps region, not of `und`.
#[tactic(auto, unfolding(crate::specs::Rows::language_alias))]
fn language_alias(key: &[u8], value: &[u8]) -> bool
    ensures { result ≡ language_alias key.now value.now }
{
    if !is_language(key) || byte_string::same(key, b"und") {
        return false;
    }
    let Some(three) = three_of(value) else {
        return false;
    };
    !byte_string::same(&value[..three.language], b"und")
}

#[tactic(auto, unfolding(crate::specs::Rows::shape_by))]
fn alias_shape(kind: AliasKind, key: &[u8], value: &[u8]) -> bool
    ensures { result ≡ shape_by (Some kind) key.now value.now }
{
    match kind {
        AliasKind::Language => language_alias(key, value),
        AliasKind::Script => is_script(key) && is_script(value),
        AliasKind::Region => is_region(key) && is_region(value),
        AliasKind::Variant => is_variant(key) && is_variant(value),
    }
}

// The kind that an alias row names, if it is one, and where the name ends.
#[derive(Clone, Copy)]
pub struct Name {
    pub kind: Option<AliasKind>,
    pub end: usize,
}

// Most rows are of languages.
pub fn name_of(line: &[u8]) -> Name
    ensures { (result.end ≡ end_of 9 line.now 0) × (result.kind ≡ kind_named (take result.end line.now)) }
{
    if table::starts_row(line, b"language") {
        return Name {
            kind: Some(AliasKind::Language),
            end: 8,
        };
    }
    let end = byte_string::end_of(line, b'\t', 0);
    let kind = kind_named(&line[..end]);
    Name { kind, end }
}

// Where the key of an alias row ends: kind, key and value. The value goes to the end: no value has a tab.
fn alias_line(line: &[u8]) -> Option<usize>
    ensures { AliasIs line.now result }
{
    let name = name_of(line);
    let kind = name.kind?;
    if line.len() <= name.end {
        return None;
    }
    let start = name.end + 1;
    let tab = byte_string::end_of(line, b'\t', start);
    if line.len() <= tab {
        return None;
    }
    let value = tab + 1;
    if alias_shape(kind, &line[start..tab], &line[value..]) {
        Some(tab)
    } else {
        None
    }
}

pub(crate) fn alias_row(s: &[u8]) -> Option<Line>
    ensures { LineIs Table.Aliases s.now result }
{
    let end = byte_string::end_of(s, b'\n', 0);
    if s.len() <= end {
        return None;
    }
    let key = alias_line(&s[..end])?;
    Some(Line { key, end })
}
