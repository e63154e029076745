// The member of a usage line, and what is wrong with it.
ghost use Rattle.std.specs.Prelude.{◌≡◌};
ghost use Rattle.bill_rules.specs.Bill.{member_of};
ghost use Rattle.bill_rules.specs.Refusals.{digits, leading_zero, member_fault};
ghost use Rattle.bill_lines.specs.Shapes.{member_is as number_is};
ghost use Rattle.refused_rows.specs.Faults.{member_is};

use bill_lines::shape::{one_digit, two_digits};
use subtag::is_digit;

// What is wrong before the identifier.
#[derive(Clone, Copy, PartialEq, Eq)]
pub enum MemberFault {
    NoTab,
    NoMember,
    NoNumber,
    ZeroFirst,
    OutOfRange,
}

// Digits and nothing else?
fn all_digits(x: &[u8]) -> bool
    ensures { result ≡ digits x.now }
{
    x.iter().all(|b| is_digit(*b))
}

// Two bytes or more, and the first is 0?
fn has_leading_zero(x: &[u8]) -> bool
    ensures { result ≡ leading_zero x.now }
{
    2 <= x.len() && x[0] == b'0'
}

// The member that a number names.
fn member_named(x: &[u8]) -> Option<u8>
    ensures { number_is result ≡ member_of x.now }
{
    match x {
        [d] => one_digit(*d),
        [d, e] => two_digits(*d, *e),
        _ => None,
    }
}

// What is wrong with a member first.
pub(crate) fn check_member(x: &[u8]) -> Result<(), MemberFault>
    ensures { member_is result ≡ member_fault x.now }
{
    if x.is_empty() {
        Err(MemberFault::NoMember)
    } else if !all_digits(x) {
        Err(MemberFault::NoNumber)
    } else if has_leading_zero(x) {
        Err(MemberFault::ZeroFirst)
    } else if member_named(x).is_none() {
        Err(MemberFault::OutOfRange)
    } else {
        Ok(())
    }
}
