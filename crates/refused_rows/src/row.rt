// The row of a refused usage line: line, member, number, place, identifier, meaning.
ghost use Rattle.std.specs.Prelude.{◌+◌, ◌≤◌, length};
ghost use Rattle.byte_string.specs.Strings.{WritesWithin};
ghost use Rattle.tsv.specs.Fields.{field};
ghost use Rattle.tsv.specs.Shown.{shown};
ghost use Rattle.bill_rules.specs.Bill.{after_tab};
ghost use Rattle.bill_rules.specs.Refusals.{of_member, of_identifier};
ghost use Rattle.refused_rows.specs.Faults.{wrong_is, fault_is};
ghost use Rattle.refused_rows.specs.Rows.{member_words, identifier_bytes, head_text, fault_row, row_if};

use crate::fault::LineFault;
use crate::member::MemberFault;
use byte_string::end_of;
use lines::next_line;
use meaning::put_meaning;
use tsv::{put, put_number, put_shown};

// The words for what is wrong before the identifier.
fn put_words(f: MemberFault, out: &mut [u8], at: usize) -> usize
    requires { at + 80 ≤ length out.old }
    ensures { WritesWithin (at + 80) out.old at (field (member_words (wrong_is f)) 10) result out.new }
{
    match f {
        MemberFault::NoTab => put(b"no tab between member and identifier", b'\n', out, at),
        MemberFault::NoMember => put(b"no member number", b'\n', out, at),
        MemberFault::NoNumber => put(b"the member is no number", b'\n', out, at),
        MemberFault::ZeroFirst => put(b"the member begins with 0", b'\n', out, at),
        MemberFault::OutOfRange => put(b"the member is not 1 to 64", b'\n', out, at),
    }
}

// The number of a line and its member, as written.
fn put_head(n: usize, line: &[u8], out: &mut [u8], at: usize) -> usize
    requires { at + 1045 ≤ length out.old }
    ensures { WritesWithin (at + 1045) out.old at (head_text n line.now) result out.new }
{
    let p = put_number(n, b'\t', out, at);
    let tab = end_of(line, b'\t', 0);
    put_shown(&line[..tab], 255, b'\t', out, p)
}

// The identifier of a line, as written.
fn put_identifier(line: &[u8], out: &mut [u8], at: usize) -> usize
    requires { at + 1024 ≤ length out.old }
    ensures { let out' = out.exit.now in let out = out.entry.now in
        WritesWithin (at + 1024) out at (field (shown 255 (identifier_bytes (after_tab line.now))) 9) result out' }
{
    let start = next_line(line.len(), end_of(line, b'\t', 0));
    put_shown(&line[start..], 255, b'\t', out, at)
}

// The row of a line with a wrong member.
fn put_member_row(f: MemberFault, n: usize, line: &[u8], out: &mut [u8], at: usize) -> usize
    requires { at + 2400 ≤ length out.old }
    ensures { let out' = out.exit.now in let out = out.entry.now in
        WritesWithin (at + 2400) out at (fault_row n line.now (of_member (wrong_is f))) result out' }
{
    let p = put_head(n, line, out, at);
    let q = put(b"-", b'\t', out, p);
    let r = put_number(0, b'\t', out, q);
    let s = put_identifier(line, out, r);
    put_words(f, out, s)
}

// The row of a line with a refused identifier.
fn put_identifier_row(
    number: u8,
    place: usize,
    n: usize,
    line: &[u8],
    out: &mut [u8],
    at: usize,
) -> usize
    requires { at + 2400 ≤ length out.old }
    ensures { let out' = out.exit.now in let out = out.entry.now in
        WritesWithin (at + 2400) out at (fault_row n line.now (of_identifier number place)) result out' }
{
    let p = put_head(n, line, out, at);
    let q = put_number(number as usize, b'\t', out, p);
    let r = put_number(place, b'\t', out, q);
    let s = put_identifier(line, out, r);
    put_meaning(number, b'\n', out, s)
}

// Writes the row of a line at the place at, where something is wrong with it, and gives the next place.
pub(crate) fn put_fault(
    checked: Result<(), LineFault>,
    n: usize,
    line: &[u8],
    out: &mut [u8],
    at: usize,
) -> usize
    requires { at + 2400 ≤ length out.old }
    ensures { let out' = out.exit.now in let out = out.entry.now in
        WritesWithin (at + 2400) out at (row_if n line.now (fault_is checked)) result out' }
{
    let Err(fault) = checked else {
        return at;
    };
    match fault {
        LineFault::OfMember(member) => put_member_row(member, n, line, out, at),
        LineFault::OfIdentifier(number, place) => put_identifier_row(
            number, place, n, line, out, at,
        ),
    }
}
