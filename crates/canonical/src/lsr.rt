// Language, script and region in canonical case, through the aliases, at the front of the canonical form.
ghost use Rattle.std.specs.Prelude.{◌≡◌, [], ◌+◌, ◌-◌, ◌≤◌, length};
ghost use Rattle.std.proofs.Math.Option.{none};
ghost use Rattle.std.proofs.lemmas.List.Edits.{sets};
ghost use Rattle.standard.specs.Reading.{split, fault_of};
ghost use Rattle.standard.specs.Table.{print_three, check, to_canonicalise};
ghost use Rattle.byte_string.specs.Strings.{Writes};
ghost use Rattle.reader.specs.Parts.{parts_of};
ghost use Rattle.canonical.specs.Three.{ends_of, language_lookup, language_word, canonical_three, after_separator, script_start, part_bytes};

use aliases::replace::{put_replaced, write_aliased};
use byte_string::{end_of, put};
use reader::{Parts, Start};
use row_shapes::lsr::script_end;
use subtag::put_normalised;
use table::hints::IndexedTable;

// Where language, script and region end; an absent one ends where the one before it does.
#[derive(Clone, Copy)]
pub struct Ends {
    pub language: usize,
    pub script: usize,
    pub region: usize,
}

// The start of the subtag whose part goes from at to end.
fn after_separator(at: usize, end: usize) -> usize
    ensures { (result ≡ after_separator at end) × (result ≤ end) }
{
    if at < end { at + 1 } else { end }
}

// The start of the script, which may be the first subtag.
fn script_start(language: usize, script: usize) -> usize
    ensures { (result ≡ script_start language script) × (result ≤ script) }
{
    if language == 0 {
        0
    } else {
        after_separator(language, script)
    }
}

// Writes the key of the language's lookup: the kind's name and the language, `und` where there is none.
fn put_language(id: &[u8], p: Parts, out: &mut [u8]) -> usize
    requires { (fault_of id.now ≡ none) × (p ≡ parts_of (split id.now)) × (32 ≤ length out.old) }
    ensures { let out' = out.exit.now in let id = id.entry.now in let out = out.entry.now in
        (result ≡ length (language_lookup id)) × (result ≤ 17) × (out' ≡ sets out 0 (language_lookup id)) }
{
    let n = put(b"language\t", out, 0);
    match p.start {
        Start::Language => put_normalised(&id[..p.language], out, n),
        Start::Script | Start::Root => put(b"und", out, n),
    }
}

// Writes the language's alias, or the language itself where it has none, and gives its length.
fn resolve_language(id: &[u8], p: Parts, aliases: IndexedTable, word: &mut [u8]) -> usize
    requires { (fault_of id.now ≡ none) × (p ≡ parts_of (split id.now)) × (check to_canonicalise aliases.rows.now [] [] ≡ none)
        × (length word.old ≡ 32) }
    ensures { let word' = word.exit.now in let made = language_word aliases.entry.rows.now id.entry.now in let word = word.entry.now in
        (result ≡ length made) × (result ≤ 17) × (word' ≡ sets word 0 made) }
{
    let mut key = [0; 32];
    let n = put_language(id, p, &mut key);
    put_replaced(&key[..n], 9, aliases, word, 0)
}

// Writes the three, with w the language's alias or the language; each part begins where the one before it ends. A script
// or a region is the one that id has, or the one that w brings in, through the aliases of its kind.
fn write_from(id: &[u8], p: Parts, w: &[u8], aliases: IndexedTable, out: &mut [u8]) -> Ends
    requires { let id = id.now in let aliases = aliases.rows.now in
        (fault_of id ≡ none) × (p ≡ parts_of (split id)) × (check to_canonicalise aliases [] [] ≡ none)
        × (w.now ≡ language_word aliases id) × (17 ≤ length out.old) }
    ensures { let out' = out.exit.now in let made = canonical_three aliases.entry.rows.now id.entry.now in let out = out.entry.now in
        (result ≡ ends_of made) × (out' ≡ sets out 0 (print_three made)) }
{
    let e = end_of(w, b'-', 0);
    let s = script_end(e, w.len());
    let written_script = &id[script_start(p.language, p.script)..p.script];
    let written_region = &id[after_separator(p.script, p.region)..p.region];
    let brought_script = &w[after_separator(e, s)..s];
    let brought_region = &w[after_separator(s, w.len())..];
    let language = put(&w[..e], out, 0);
    let script = write_aliased(
        written_script,
        1,
        brought_script,
        b"script\t",
        aliases,
        out,
        language,
    );
    let region = write_aliased(
        written_region,
        8,
        brought_region,
        b"region\t",
        aliases,
        out,
        script,
    );
    Ends {
        language,
        script,
        region,
    }
}

// Writes language, script and region of the canonical form at the front of out.
pub(crate) fn write_three(id: &[u8], p: Parts, aliases: IndexedTable, out: &mut [u8]) -> Ends
    requires { (fault_of id.now ≡ none) × (p ≡ parts_of (split id.now)) × (check to_canonicalise aliases.rows.now [] [] ≡ none)
        × (17 ≤ length out.old) }
    ensures { let out' = out.exit.now in let made = canonical_three aliases.entry.rows.now id.entry.now in let out = out.entry.now in
        (result ≡ ends_of made) × (out' ≡ sets out 0 (print_three made)) }
{
    let mut word = [0; 32];
    let m = resolve_language(id, p, aliases, &mut word);
    write_from(id, p, &word[..m], aliases, out)
}
