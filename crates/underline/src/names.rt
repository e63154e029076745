// The names of the parts.
ghost use Rattle.std.specs.Prelude.{◌≡◌};
ghost use Rattle.underline.specs.Names.{part_named};

use crate::Part;
use byte_string::same;

// The part of this name, if it is one's.
#[tactic(auto, unfolding(crate::specs::Names::part_named))]
pub fn part_named(name: &[u8]) -> Option<Part>
    ensures { result ≡ part_named name.now }
{
    if same(name, b"language") {
        Some(Part::Language)
    } else if same(name, b"script") {
        Some(Part::Script)
    } else if same(name, b"region") {
        Some(Part::Region)
    } else if same(name, b"variants") {
        Some(Part::Variants)
    } else {
        None
    }
}
