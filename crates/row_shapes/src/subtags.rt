// The subtags of rows, in canonical case: language, script, region and variant.
ghost use Rattle.std.specs.Prelude.{◌≡◌, ◌||◌};
ghost use Rattle.standard.specs.Grammar.{small, digit, is_language};
ghost use Rattle.standard.specs.Table.{is_variant_tag};
ghost use Rattle.row_shapes.specs.Shapes.{is_script, is_region};

// 2, 3 or 5 to 8 small letters.
pub(crate) fn is_language(s: &[u8]) -> bool
    ensures { result ≡ is_language s.now }
{
    match s.len() {
        2 | 3 | 5..=8 => s.iter().all(|b| subtag::is_small(*b)),
        _ => false,
    }
}

// 4 letters, the first a capital.
pub(crate) fn is_script(s: &[u8]) -> bool
    ensures { result ≡ is_script s.now }
{
    if s.len() != 4 || !subtag::is_capital(s[0]) {
        return false;
    }
    s[1..].iter().all(|b| subtag::is_small(*b))
}

// 2 capitals or 3 digits.
pub(crate) fn is_region(s: &[u8]) -> bool
    ensures { result ≡ is_region s.now }
{
    match s.len() {
        2 => s.iter().all(|b| subtag::is_capital(*b)),
        3 => s.iter().all(|b| subtag::is_digit(*b)),
        _ => false,
    }
}

// 5 to 8 small letters or digits, or 4 of which the first is a digit.
pub(crate) fn is_variant(s: &[u8]) -> bool
    ensures { result ≡ is_variant_tag s.now }
{
    match s.len() {
        4 => subtag::is_digit(s[0]) && s.iter().all(|b| is_word(*b)),
        5..=8 => s.iter().all(|b| is_word(*b)),
        _ => false,
    }
}

fn is_word(b: u8) -> bool
    ensures { result ≡ (small b || digit b) }
{
    subtag::is_small(b) || subtag::is_digit(b)
}
