// A usage line: a member number, a tab and an identifier.
ghost use Rattle.std.specs.Prelude.{◌≡◌, [], ◌∷◌, ◌≤◌};
ghost use Rattle.std.specs.Option.{IfSome};
ghost use Rattle.bill_rules.specs.Bill.{member_of};
ghost use Rattle.bill_lines.specs.Shapes.{member_is, InMembers, Shaped};

use byte_string::end_of;
use subtag::is_digit;

// The member of a line, 1 to 64, and where its identifier starts.
#[derive(Clone, Copy)]
pub struct Shape {
    pub member: u8,
    pub start: usize,
}

// The member that one digit names.
pub fn one_digit(d: u8) -> Option<u8>
    ensures { (member_is result ≡ member_of (d ∷ [])) × IfSome result InMembers }
{
    if is_digit(d) && d != b'0' {
        Some(d - b'0')
    } else {
        None
    }
}

// The member that two digits name.
pub fn two_digits(d: u8, e: u8) -> Option<u8>
    ensures { (member_is result ≡ member_of (d ∷ e ∷ [])) × IfSome result InMembers }
{
    let tens = one_digit(d)?;
    if !is_digit(e) {
        return None;
    }
    let n = tens * 10 + (e - b'0');
    if n <= 64 { Some(n) } else { None }
}

// The member that a number names.
fn member_named(number: &[u8]) -> Option<u8>
    ensures { (member_is result ≡ member_of number.now) × IfSome result InMembers }
{
    match number {
        [d] => one_digit(*d),
        [d, e] => two_digits(*d, *e),
        _ => None,
    }
}

// The member and the identifier of a line; none where it has no tab, or no member before it.
pub(crate) fn shape_of(line: &[u8]) -> Option<Shape>
    ensures { Shaped line.now result }
{
    let tab = end_of(line, b'\t', 0);
    if line.len() <= tab {
        return None;
    }
    let member = member_named(&line[..tab])?;
    Some(Shape {
        member,
        start: tab + 1,
    })
}
