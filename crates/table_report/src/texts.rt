// Bytes of a text: how often one stands in it, and whether all may stand in a row.
ghost use Rattle.std.specs.Prelude.{◌≡◌, ◌≤◌, length};
ghost use Rattle.standard.specs.Grammar.{every};
ghost use Rattle.table_report.specs.Faults.{count_of, fits, line_start};

// How often a byte stands in a text.
pub(crate) fn count(s: &[u8], b: u8) -> usize
    ensures { (result ≡ count_of b s.now) × (result ≤ length s.now) }
{
    s.iter().filter(|x| **x == b).count()
}

// Is it a letter, a digit, `-` or a tab?
#[tactic(auto, unfolding(crate::specs::Faults::fits))]
fn fits_row(b: u8) -> bool
    ensures { result ≡ fits b }
{
    subtag::is_small(b) || subtag::is_capital(b) || subtag::is_digit(b) || b == b'-' || b == b'\t'
}

// Are all bytes such?
pub(crate) fn all_fit(s: &[u8]) -> bool
    ensures { result ≡ every fits s.now }
{
    s.iter().all(|b| fits_row(*b))
}

// Where the line starts that goes on at the place at.
pub(crate) fn line_start(x: &[u8], at: usize) -> usize
    requires { at ≤ length x.now }
    ensures { (result ≡ line_start x.now at) × (result ≤ at) }
{
    at - x[..at].iter().rev().take_while(|b| **b != b'\n').count()
}
