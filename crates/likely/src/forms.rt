// The maximised or minimised form, delivered: the three by parts, then the variants and extensions as they stand.
ghost use Rattle.std.specs.Prelude.{◌≡◌, ◌+◌, ◌≤◌, length};
ghost use Rattle.std.proofs.lemmas.List.Edits.{sets};
ghost use Rattle.standard.specs.Delivery.{given};
ghost use Rattle.likely.specs.Parts.{parts_length};
ghost use Rattle.likely.specs.Lent.{parts_is};
ghost use Rattle.likely.specs.Forms.{given_by, short_length, bytes_of, made_form, made_parts, ReadyFor};

use crate::lsr::{completed, minimised};
use crate::parts::{Parts, known};
use byte_string::put;
use table::hints::HintedTable;

// Why there is no form: no row of the likely table, over 255 bytes, or an output that is too short.
#[derive(Clone, Copy, PartialEq, Eq)]
pub enum NoForm {
    NoRow,
    Overlong,
    Short,
}

// The length of the form, if it has at most 255 bytes.
fn form_length(parts: Parts, rest: &[u8]) -> Option<usize>
    ensures { result ≡ short_length (length (bytes_of (parts_is parts.entry) rest.now)) }
{
    let n = parts
        .language
        .len()
        .saturating_add(parts.script.len())
        .saturating_add(parts.region.len())
        .saturating_add(rest.len());
    if n <= 255 { Some(n) } else { None }
}

// Writes the parts at the front of the output, and gives their length.
fn put_form(parts: Parts, rest: &[u8], out: &mut [u8]) -> usize
    requires { parts_length (parts_is parts) + length rest.now ≤ length out.old }
    ensures { let form = bytes_of (parts_is parts.entry) rest.entry.now in
        (result ≡ length form) × (out.exit.now ≡ sets out.entry.now 0 form) }
{
    let a = put(parts.language, out, 0);
    let b = put(parts.script, out, a);
    let c = put(parts.region, out, b);
    put(rest, out, c)
}

// Writes the form at the front of the lent output, or refuses.
fn deliver(parts: Parts, rest: &[u8], out: &mut [u8]) -> Result<usize, NoForm>
    ensures { given_by result out.exit.now ≡ given (made_form (bytes_of (parts_is parts.entry) rest.entry.now)) out.entry.now }
{
    let Some(n) = form_length(parts, rest) else {
        return Err(NoForm::Overlong);
    };
    if out.len() < n {
        return Err(NoForm::Short);
    }
    Ok(put_form(parts, rest, out))
}

// The maximised form of canonical parts and the rest, or the minimised one. One function with a flag: two would say the
// refusals and the delivery twice.
pub fn form_by_parts<'a>(
    shorten: bool,
    parts: Parts<'a>,
    rest: &[u8],
    likely: HintedTable<'a>,
    out: &mut [u8],
) -> Result<usize, NoForm>
    ensures { let p = parts_is parts.entry in let hints = likely.entry.hints.now in let likely = likely.entry.rows.now in
        ReadyFor likely hints p → given_by result out.exit.now ≡ given (made_parts shorten likely rest.entry.now p) out.entry.now }
{
    let known = Parts {
        script: known(parts.script, b"-Zzzz"),
        region: known(parts.region, b"-ZZ"),
        ..parts
    };
    let Some(whole) = completed(&likely, &known) else {
        return Err(NoForm::NoRow);
    };
    if !shorten {
        return deliver(whole, rest, out);
    }
    if form_length(whole, rest).is_none() {
        return Err(NoForm::Overlong);
    }
    deliver(minimised(&likely, &whole), rest, out)
}
