// The chain of parents over tables that were tested. The library comes through here.
ghost use Rattle.std.specs.Prelude.{◌≡◌, [], ◌+◌, ◌≤◌, length, take};
ghost use Rattle.standard.specs.Delivery.{given};
ghost use Rattle.standard.specs.Identifier.{und};
ghost use Rattle.standard.specs.Reading.{read};
ghost use Rattle.standard.specs.Table.{tables_of};
ghost use Rattle.standard.specs.Make.{chain_from};
ghost use Rattle.table.specs.Search.{Sorted};
ghost use Rattle.parents.specs.Texts.{chain_text};
ghost use Rattle.parents.specs.Listed.{Lists};
ghost use Rattle.operations.specs.Answer.{given_is};
ghost use Rattle.operations.specs.Chained.{TestedChain};

use crate::delivery::{Done, Refusal};
use canonical::buffer::buffer;
use canonical::form::{Form, canonical_form};
use parents::lines::{Listed, list};
use table::hints::IndexedTable;

// Lists the canonical form in buf without its extensions, and its parents, if that fits; where it would end, if not.
fn list_form<'a>(
    buf: &'a [u8],
    f: Form,
    parents: &'a [u8],
    root: &'a [u8],
    out: &mut [u8],
) -> Result<Listed, Listed>
    requires { (f.variants ≤ length buf.now) × (length buf.now ≤ 512) × (f.count ≤ 255) × (length parents.now ≤ 32768) × (root.now ≡ und) }
    ensures { let out' = out.exit.now in let parents = parents.entry.now in let out = out.entry.now in let buf = buf.entry.now in
        (Sorted parents → Lists 0 out (chain_text parents (f.count + 10) f.count (take f.variants buf)) result out') }
{
    list(
        &buf[..f.variants],
        f.count,
        parents,
        root,
        f.count + 10,
        out,
        0,
    )
}

// The chain of an identifier: it first canonicalises.
pub fn chain_tested(
    id: &[u8],
    aliases: IndexedTable,
    parents: &[u8],
    out: &mut [u8],
) -> Result<Done, Refusal>
    requires { TestedChain aliases.rows.now parents.now }
    ensures { let tables = tables_of aliases.entry.rows.now [] parents.entry.now in
        given_is result out.exit.now ≡ given (chain_from tables (read id.entry.now)) out.entry.now }
{
    let mut buf = buffer();
    let made = canonical_form(id, aliases, &mut buf);
    let Ok(form) = made else {
        return Err(Refusal::from(made.unwrap_err()));
    };
    let Ok(listed) = list_form(&buf, form, parents, b"und", out) else {
        return Err(Refusal::Short);
    };
    Ok(Done {
        len: listed.end,
        steps: listed.steps,
    })
}
