// The key of an identifier: language, script and region of its minimised form.
ghost use Rattle.std.specs.Prelude.{◌≡◌, ◌≤◌, length};
ghost use Rattle.std.specs.Option.{IfSome};
ghost use Rattle.bill_rules.specs.Bill.{key_of};
ghost use Rattle.bill_lines.specs.Keys.{key_is};
ghost use Rattle.bill_lines.specs.Over.{tables_in};

use canonical::buffer::buffer;
use canonical::form::canonical_form;
use operations::complete::from_form;
use operations::tables::TestedTables;

// Writes the minimised form at the front of out, and answers the length of its key, which stands first; none where the
// identifier is refused.
pub(crate) fn key_of(id: &[u8], tables: TestedTables, out: &mut [u8]) -> Option<usize>
    requires { 255 ≤ length out.old }
    ensures { (key_is result out.new ≡ key_of (tables_in tables.entry) id.now) × IfSome result (λ n. n ≤ 26) }
{
    let mut buf = buffer();
    let Ok(form) = canonical_form(id, tables.aliases, &mut buf) else {
        return None;
    };
    let Ok(len) = from_form(true, &buf, form, tables.likely.hinted(), out) else {
        return None;
    };
    let rest = form.len - form.region;
    Some(len.saturating_sub(rest))
}
