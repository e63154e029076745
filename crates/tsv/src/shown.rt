// Bytes of unknown origin, written as they are shown on a terminal.
ghost use Rattle.std.specs.Prelude.{◌≡◌, false, ◌+◌, ◌*◌, ◌≤◌, ◌<◌, length, take};
ghost use Rattle.byte_string.specs.Strings.{WritesWithin};
ghost use Rattle.tsv.specs.Shown.{plain, hex, safe_byte, safe};

// Does the byte stand for itself?
#[tactic(auto, unfolding(crate::specs::Shown::plain))]
fn is_plain(b: u8) -> bool
    ensures { result ≡ plain b }
{
    matches!(b, 32..=126) && b != b'\\'
}

// A hex digit's character.
#[tactic(auto, unfolding(crate::specs::Shown::hex))]
fn hex_digit(n: u8) -> u8
    requires { n < 16 }
    ensures { result ≡ hex n }
{
    if n < 10 { 48 + n } else { 55 + n }
}

// Writes `\xNN` at the place at, and gives the next place.
fn put_escape(b: u8, out: &mut [u8], at: usize) -> usize
    requires { (plain b ≡ false) × (at + 4 ≤ length out.old) }
    ensures { WritesWithin (at + 4) out.old at (safe_byte b) result out.new }
{
    out[at] = 92;
    out[at + 1] = 120;
    out[at + 2] = hex_digit(b / 16);
    out[at + 3] = hex_digit(b % 16);
    at + 4
}

// Writes a byte as a terminal may be given it.
fn put_byte(b: u8, out: &mut [u8], at: usize) -> usize
    requires { at + 4 ≤ length out.old }
    ensures { WritesWithin (at + 4) out.old at (safe_byte b) result out.new }
{
    if is_plain(b) {
        out[at] = b;
        return at + 1;
    }
    put_escape(b, out, at)
}

// The same of the first bytes of src, at most so many.
pub(crate) fn put_safe(src: &[u8], most: usize, out: &mut [u8], at: usize) -> usize
    requires { at + 4 * most ≤ length out.old }
    ensures { WritesWithin (at + 4 * most) out.old at (safe (take most src.now)) result out.new }
{
    let first = &src[..src.len().min(most)];
    let mut p = at;
    for b in first {
        p = put_byte(*b, out, p);
    }
    p
}
