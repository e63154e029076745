// Canonicalising over aliases that were tested. The library comes through here.
ghost use Rattle.std.specs.Prelude.{◌≡◌, []};
ghost use Rattle.std.proofs.Math.Option.{none};
ghost use Rattle.standard.specs.Calls.{canonicalise as canonicalising};
ghost use Rattle.standard.specs.Delivery.{given};
ghost use Rattle.standard.specs.Make.{make};
ghost use Rattle.standard.specs.Table.{tables_of, check, to_canonicalise};
ghost use Rattle.operations.specs.Answer.{given_is};

use crate::delivery::{Done, Refusal, deliver};
use canonical::buffer::buffer;
use canonical::form::canonical_form;
use table::hints::IndexedTable;

// Canonicalises an identifier over aliases that passed the check.
pub fn canonicalise_tested(
    id: &[u8],
    aliases: IndexedTable,
    out: &mut [u8],
) -> Result<Done, Refusal>
    requires { check to_canonicalise aliases.rows.now [] [] ≡ none }
    ensures { let made = make (tables_of aliases.entry.rows.now [] []) canonicalising id.entry.now in
        given_is result out.exit.now ≡ given made out.entry.now }
{
    let mut buf = buffer();
    let made = canonical_form(id, aliases, &mut buf);
    let Ok(form) = made else {
        return Err(Refusal::from(made.unwrap_err()));
    };
    deliver(&buf[..form.len], out)
}
