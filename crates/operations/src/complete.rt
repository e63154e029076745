// Maximising and minimising over tables that were tested. The library and the libraries of lines come through here.
ghost use Rattle.std.specs.Prelude.{◌≡◌, List, [], ℕ, ◌≤◌, length};
ghost use Rattle.standard.specs.Delivery.{given};
ghost use Rattle.standard.specs.Table.{tables_of};
ghost use Rattle.standard.specs.Make.{make};
ghost use Rattle.likely.specs.Parts.{Parts as ThreeParts};
ghost use Rattle.likely.specs.Forms.{given_by, made_parts, ReadyFor};
ghost use Rattle.operations.specs.Slices.{Slices};
ghost use Rattle.operations.specs.Answer.{given_is};
ghost use Rattle.operations.specs.Both.{operation_of};

use crate::delivery::{Done, Refusal};
use crate::tables::TestedTables;
use canonical::buffer::buffer;
use canonical::form::{Form, canonical_form};
use likely::forms::{NoForm, form_by_parts};
use likely::parts::Parts;
use table::hints::HintedTable;

// The maximised or minimised form of the canonical form in buf.
pub fn from_form<'a>(
    shorten: bool,
    buf: &'a [u8],
    f: Form,
    likely: HintedTable<'a>,
    out: &mut [u8],
) -> Result<usize, NoForm>
    requires { (f.language ≤ f.script) × (f.script ≤ f.region) × (f.region ≤ f.len) × (f.len ≤ length buf.now) }
    ensures { let out' = out.exit.now in let buf = buf.entry.now in let hints = likely.entry.hints.now in
        let likely = likely.entry.rows.now in let out = out.entry.now in
        ((p : ThreeParts) → (rest : List ℕ) → Slices buf p.language p.script p.region rest f.language f.script f.region f.len
        → ReadyFor likely hints p → given_by result out' ≡ given (made_parts shorten likely rest p) out) }
{
    let parts = Parts {
        language: &buf[..f.language],
        script: &buf[f.language..f.script],
        region: &buf[f.script..f.region],
    };
    form_by_parts(shorten, parts, &buf[f.region..f.len], likely, out)
}

// Room for a form, which has at most 255 bytes.
pub fn form_buffer() -> [u8; 256]
    ensures { length result ≡ 256 }
{
    [0u8; 256]
}

// The maximised form of an identifier, or with shorten the minimised one: a bool, since the two differ only at the end.
// Both first canonicalise.
pub fn form_tested(
    shorten: bool,
    id: &[u8],
    tables: TestedTables,
    out: &mut [u8],
) -> Result<Done, Refusal>
    ensures { let used = tables_of tables.entry.aliases.rows.now tables.entry.likely.rows.now [] in
        given_is result out.exit.now ≡ given (make used (operation_of shorten) id.entry.now) out.entry.now }
{
    let mut buf = buffer();
    let made = canonical_form(id, tables.aliases, &mut buf);
    let Ok(form) = made else {
        return Err(Refusal::from(made.unwrap_err()));
    };
    let len = from_form(shorten, &buf, form, tables.likely.hinted(), out)?;
    Ok(Done { len, steps: 0 })
}
