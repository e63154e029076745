// THE LIBRARY: every operation that a caller may use. Each takes any bytes, and its promise is one equation for every input.
// Everything that this crate rests on is inner.
#![tactic(auto)]

ghost use Rattle.std.specs.Prelude.{◌≡◌, []};
ghost use Rattle.standard.specs.Delivery.{given};
ghost use Rattle.standard.specs.Make.{canonicalise_made, maximise_made, minimise_made, list_made, check_made};
ghost use Rattle.standard.specs.Table.{located};
ghost use Rattle.standard.specs.Report.{report};
ghost use Rattle.table.specs.Lines.{value_is, value_if, value_of};
ghost use Rattle.reader.specs.Words.{report_is};
ghost use Rattle.operations.specs.Answer.{given_is, checked_is};
ghost use Rattle.operations.specs.Both.{whole_made};

use operations::canonicalise::canonicalise_tested;
use operations::chain::chain_tested;
use operations::complete::form_tested;
pub use operations::delivery::{Done, Refusal};
use operations::tables::{tested, unhinted};
pub use reader::Refusal as Unread;
pub use reader::report::Report;
pub use table_check::Fault;
use table_check::{check_aliases, check_likely, check_parents};

// Reads an identifier: language, script and region in canonical case before aliases, how many variants and extensions it
// has; or why reading refuses it, by number (1 to 7, 15, 16) and place.
pub fn read(id: &[u8]) -> Result<Report, Unread>
    ensures { report_is result ≡ report id.now }
{
    reader::report::read(id)
}

// The value of the first row with the key, as a part of the lent table; for all bytes.
pub fn lookup<'a>(t: &'a [u8], key: &[u8]) -> Option<&'a [u8]>
    ensures { let t = t.entry.now in value_is result ≡ value_if t (located t key.now) }
{
    table::lookup(t, key)
}

// The same value, or an empty part at the front of the table where no row has the key.
pub fn lookup_part<'a>(t: &'a [u8], key: &[u8]) -> &'a [u8]
    ensures { result.now ≡ value_of t.now (located t.now key.now) }
{
    lookup(t, key).unwrap_or(&t[..0])
}

// Checks the three tables, and gives the first fault (11 to 14) with its place and its table.
pub fn check(aliases: &[u8], likely: &[u8], parents: &[u8]) -> Result<(), Fault>
    ensures { given_is (checked_is result) [] ≡ given (check_made aliases.now likely.now parents.now) [] }
{
    table_check::check(aliases, likely, parents)
}

// Canonicalises an identifier into out: the refusals of the aliases (11 to 14), of reading (1 to 7, 15, 16), of a form
// over 255 bytes (9) and of a lent output that is too short (10); else the form stands at the front of out.
pub fn canonicalise(id: &[u8], aliases: &[u8], out: &mut [u8]) -> Result<Done, Refusal>
    ensures { given_is result out.new ≡ given (canonicalise_made aliases.now id.now) out.old }
{
    check_aliases(aliases)?;
    canonicalise_tested(id, unhinted(aliases), out)
}

// Tests the tables, then makes the maximised form, or with shorten the minimised one.
fn operation(
    shorten: bool,
    id: &[u8],
    aliases: &[u8],
    likely: &[u8],
    out: &mut [u8],
) -> Result<Done, Refusal>
    ensures { let out' = out.exit.now in let aliases = aliases.entry.now in let likely = likely.entry.now in let id = id.entry.now in
        let out = out.entry.now in
        given_is result out' ≡ given (whole_made shorten aliases likely id) out }
{
    check_likely(aliases, likely)?;
    let tables = tested(unhinted(aliases), unhinted(likely));
    form_tested(shorten, id, tables, out)
}

// Maximises an identifier into out: the refusals of the tables (11 to 14) and of canonicalising (1 to 7, 15, 16, 9), no
// likely row (8), a form over 255 bytes (9), a lent output that is too short (10); else the form stands at the front of
// out.
pub fn maximise(id: &[u8], aliases: &[u8], likely: &[u8], out: &mut [u8]) -> Result<Done, Refusal>
    ensures { given_is result out.new ≡ given (maximise_made aliases.now likely.now id.now) out.old }
{
    operation(false, id, aliases, likely, out)
}

// Minimises an identifier into out: refused exactly where maximising is, and then with the same number, before 10.
pub fn minimise(id: &[u8], aliases: &[u8], likely: &[u8], out: &mut [u8]) -> Result<Done, Refusal>
    ensures { given_is result out.new ≡ given (minimise_made aliases.now likely.now id.now) out.old }
{
    operation(true, id, aliases, likely, out)
}

// Lists the chain of an identifier into out: the refusals of the tables (11 to 14) and of canonicalising (1 to 7, 15, 16,
// 9), a lent output that is too short (10); else the lines stand at the front of out, with their length and the steps.
pub fn chain(id: &[u8], aliases: &[u8], parents: &[u8], out: &mut [u8]) -> Result<Done, Refusal>
    ensures { given_is result out.new ≡ given (list_made aliases.now parents.now id.now) out.old }
{
    check_parents(aliases, parents)?;
    chain_tested(id, unhinted(aliases), parents, out)
}
