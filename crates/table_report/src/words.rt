// The words for what is wrong with a row.
ghost use Rattle.std.specs.Prelude.{◌+◌, ◌≤◌, length};
ghost use Rattle.byte_string.specs.Strings.{WritesWithin};
ghost use Rattle.tsv.specs.Fields.{field};
ghost use Rattle.table_report.specs.Words.{wrong_words, told_text};

use crate::Wrong;
use meaning::put_meaning;
use tsv::put;

// Writes them and 0A at the place at, and gives the next place.
fn put_wrong(w: Wrong, out: &mut [u8], at: usize) -> usize
    requires { at + 60 ≤ length out.old }
    ensures { WritesWithin (at + 60) out.old at (field (wrong_words w) 10) result out.new }
{
    match w {
        Wrong::NoEnd => put(b"no line end", b'\n', out, at),
        Wrong::Empty => put(b"an empty line", b'\n', out, at),
        Wrong::Return => put(b"CR at the end", b'\n', out, at),
        Wrong::NoTab => put(b"no tab", b'\n', out, at),
        Wrong::FewTabs => put(b"a tab too few", b'\n', out, at),
        Wrong::ManyTabs => put(b"a tab too many", b'\n', out, at),
        Wrong::Byte => put(b"a byte that is no letter, digit, - or tab", b'\n', out, at),
        Wrong::Kind => put(b"unknown kind", b'\n', out, at),
        Wrong::Case => put(b"wrong case", b'\n', out, at),
        Wrong::Field => put(b"a key or value that can't stand there", b'\n', out, at),
        Wrong::SameKey => put(b"the same key again", b'\n', out, at),
        Wrong::Order => put(b"not in byte order", b'\n', out, at),
    }
}

// Writes the words of a number, `: ` and what is wrong.
pub(crate) fn put_told(number: u8, w: Wrong, out: &mut [u8], at: usize) -> usize
    requires { at + 150 ≤ length out.old }
    ensures { WritesWithin (at + 150) out.old at (field (told_text number w) 10) result out.new }
{
    let p = put_meaning(number, b':', out, at);
    let q = put(b"", b' ', out, p);
    put_wrong(w, out, q)
}
