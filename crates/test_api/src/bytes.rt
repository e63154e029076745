// The class of a byte.
ghost use Rattle.std.specs.Prelude.{◌≡◌};
ghost use Rattle.subtag.specs.Bytes.{class_of};
ghost use Rattle.test_api.specs.Codes.{class_code};

use subtag::Class;

// 0 for none, 1 for a small letter, 2 for a capital, 3 for a digit, 4 for a separator.
#[unsafe(no_mangle)]
pub extern "C" fn probe_class(b: u8) -> u64
    ensures { result ≡ class_code (class_of b) }
{
    code_class(subtag::class_of(b))
}

fn code_class(k: Class) -> u64
    ensures { result ≡ class_code k }
{
    match k {
        Class::Small => 1,
        Class::Capital => 2,
        Class::Digit => 3,
        Class::Separator => 4,
        Class::Other => 0,
    }
}
