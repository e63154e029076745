// What is wrong with a usage line.
ghost use Rattle.std.specs.Prelude.{◌≡◌, ◌+◌, ◌≤◌, [], length};
ghost use Rattle.standard.specs.Table.{tables_of};
ghost use Rattle.standard.specs.Calls.{minimise};
ghost use Rattle.standard.specs.Make.{make};
ghost use Rattle.bill_rules.specs.Refusals.{made_fault, line_fault};
ghost use Rattle.refused_rows.specs.Faults.{fault_is};
ghost use Rattle.refused_rows.specs.declared.fault.LineFault.TheVariants.{OfMember as by_member};

use crate::member::{MemberFault, check_member};
use byte_string::end_of;
use operations::complete::form_tested;
use operations::delivery::Answer;
use operations::tables::TestedTables;

// The member, or number and place of the identifier's refusal, the place counted from the line's first byte.
#[derive(Clone, Copy, PartialEq, Eq)]
pub enum LineFault {
    OfMember(MemberFault),
    OfIdentifier(u8, usize),
}

impl From<MemberFault> for LineFault {
    ghost from_gives = { λ e r. r ≡ by_member e };

    fn from(e: MemberFault) -> LineFault {
        LineFault::OfMember(e)
    }
}

// Of an identifier that starts at this place of its line. What form holds before and after is of no account.
fn check_identifier(
    start: usize,
    id: &[u8],
    tables: TestedTables,
    form: &mut [u8],
) -> Result<(), LineFault>
    requires { (length form.old ≡ 256) × (start ≤ 260) }
    ensures { let used = tables_of tables.entry.aliases.rows.now tables.entry.likely.rows.now [] in
        fault_is result ≡ made_fault start (make used minimise id.entry.now) }
{
    let answer = Answer::from(form_tested(true, id, tables, form));
    if answer.number == 0 {
        return Ok(());
    }
    Err(LineFault::OfIdentifier(answer.number, start + answer.place))
}

// Of a line.
pub(crate) fn check_line(
    line: &[u8],
    tables: TestedTables,
    form: &mut [u8],
) -> Result<(), LineFault>
    requires { (length form.old ≡ 256) × (length line.now ≤ 260) }
    ensures { let used = tables_of tables.entry.aliases.rows.now tables.entry.likely.rows.now [] in
        fault_is result ≡ line_fault used line.entry.now }
{
    let tab = end_of(line, b'\t', 0);
    if line.len() <= tab {
        return Err(LineFault::OfMember(MemberFault::NoTab));
    }
    check_member(&line[..tab])?;
    let start = tab + 1;
    check_identifier(start, &line[start..], tables, form)
}
