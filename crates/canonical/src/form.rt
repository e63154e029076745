// The canonical form of an identifier over aliases that were tested, in a lent buffer. All operations come through here;
// none of them tests a table twice.
ghost use Rattle.std.specs.Prelude.{◌≡◌, [], ◌≤◌, ◌<◌, length};
ghost use Rattle.std.proofs.Math.Option.{none};
ghost use Rattle.std.proofs.lemmas.List.Edits.{sets};
ghost use Rattle.standard.specs.Reading.{split, fault_of, print};
ghost use Rattle.standard.specs.Table.{check, to_canonicalise};
ghost use Rattle.reader.specs.Parts.{parts_of};
ghost use Rattle.canonical.specs.declared.form.NoForm.TheVariants.{Unread};
ghost use Rattle.canonical.specs.Form.{hyphens, form_of, no_form_is, outcome_of, outcome, accepted, FormFits};

use crate::lsr::write_three;
use crate::variants::write_variants;
use canonical_order::extensions::write_extensions;
use reader::{Fault, Parts, Refusal, read_parts};
use subtag::put_normalised;
use table::hints::IndexedTable;

// Where the parts of the canonical form end in its bytes. Language, script and region stand at the front, so that each
// form that names some of them is a prefix; then variants, extensions and private use; an absent part ends where the one
// before it does. count is the number of variants.
#[derive(Clone, Copy)]
pub struct Form {
    pub language: usize,
    pub script: usize,
    pub region: usize,
    pub variants: usize,
    pub extensions: usize,
    pub len: usize,
    pub count: usize,
}

// Why there is no form: reading refuses, or the form is over 255 bytes.
#[derive(Clone, Copy, PartialEq, Eq)]
pub enum NoForm {
    Unread(Refusal),
    Overlong,
}

impl From<Refusal> for NoForm {
    ghost from_gives = { λ e r. r ≡ Unread e };

    fn from(e: Refusal) -> NoForm {
        NoForm::Unread(e)
    }
}

// The number and place of a refusal of canonicalising: where reading refuses, its answer stands.
pub fn fault_of(r: NoForm) -> Fault
    ensures { (result.number ≡ (no_form_is r).number) × (result.place ≡ (no_form_is r).place) × (0 < result.number) }
{
    match r {
        NoForm::Unread(why) => reader::fault_of(why),
        NoForm::Overlong => Fault {
            number: 9,
            place: 0,
        },
    }
}

// How many subtags a written section has: each has a hyphen before it.
fn count_subtags(s: &[u8]) -> usize
    ensures { result ≡ hyphens s.now }
{
    s.iter().filter(|&&b| b == b'-').count()
}

// Writes the canonical form of an identifier that was read.
fn write_form(id: &[u8], p: Parts, aliases: IndexedTable, out: &mut [u8]) -> Form
    requires { (fault_of id.now ≡ none) × (p ≡ parts_of (split id.now)) × (check to_canonicalise aliases.rows.now [] [] ≡ none)
        × (length out.old ≡ 512) }
    ensures { let out' = out.exit.now in let made = accepted aliases.entry.rows.now id.entry.now in let out = out.entry.now in
        (result ≡ form_of made) × (result.len ≡ length (print made)) × (out' ≡ sets out 0 (print made)) }
{
    let ends = write_three(id, p, aliases, out);
    let variants = write_variants(&id[p.region..p.variants], aliases, out, ends.region);
    let extensions = write_extensions(&id[p.variants..p.extensions], out, variants);
    let len = put_normalised(&id[p.extensions..], out, extensions);
    let count = count_subtags(&out[ends.region..variants]);
    Form {
        language: ends.language,
        script: ends.script,
        region: ends.region,
        variants,
        extensions,
        len,
        count,
    }
}

// Canonicalises an identifier into out, over aliases that passed the check. Where reading refuses, its answer stands; a
// form over 255 bytes is refused.
pub fn canonical_form(id: &[u8], aliases: IndexedTable, out: &mut [u8]) -> Result<Form, NoForm>
    requires { (check to_canonicalise aliases.rows.now [] [] ≡ none) × (length out.old ≡ 512) }
    ensures { (outcome_of result out.exit.now ≡ outcome aliases.entry.rows.now id.entry.now) × FormFits result }
{
    let p = read_parts(id)?;
    let form = write_form(id, p, aliases, out);
    if 255 < form.len {
        return Err(NoForm::Overlong);
    }
    Ok(form)
}
