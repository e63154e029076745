// One mark for each singleton seen, in 36 places of a number.
ghost use Rattle.std.specs.Prelude.{◌≡◌, ◌<◌, ◌^◌, eqb};
ghost use Rattle.std.specs.Int.Bits.{bit_or};
ghost use Rattle.reader.specs.Marks.{place_of, bit, marked_with};

use subtag::Class;

// The place of a letter or digit: 0 to 9, then 10 to 35; 36 for any other byte.
#[tactic(auto, unfolding(crate::specs::Marks::place_of, crate::specs::Marks::place_as))]
fn place(b: u8) -> u32
    ensures { result ≡ place_of b }
{
    match subtag::class_of(b) {
        Class::Digit => u32::from(b) - 48,
        Class::Small => u32::from(b) - 87,
        Class::Capital => u32::from(b) - 55,
        Class::Separator | Class::Other => 36,
    }
}

// Whether the place p is marked.
fn marked(set: u64, p: u32) -> bool
    requires { p < 64 }
    ensures { result ≡ eqb (bit set p) 1 }
{
    (set >> p) % 2 == 1
}

// The set with the place p marked too.
fn mark(set: u64, p: u32) -> u64
    requires { p < 64 }
    ensures { result ≡ bit_or set (2 ^ p) }
{
    set | 1 << p
}

// The marks after a singleton, unless it is marked already.
#[tactic(auto, unfolding(crate::specs::Marks::marked_with))]
pub(crate) fn add(set: u64, singleton: u8) -> Option<u64>
    ensures { result ≡ marked_with set singleton }
{
    let p = place(singleton);
    if marked(set, p) {
        None
    } else {
        Some(mark(set, p))
    }
}
