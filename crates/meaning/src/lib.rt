// Inner. The words for the numbers that the library, the bill and the check of the tables answer.
#![tactic(auto)]

ghost use Rattle.std.specs.Prelude.{◌+◌, ◌≤◌, length};
ghost use Rattle.byte_string.specs.Strings.{WritesWithin};
ghost use Rattle.tsv.specs.Fields.{field};
ghost use Rattle.meaning.specs.Meaning.{refusal_of, meaning_of};

use tsv::put;

// Writes the words of a number with which reading refuses, as put_meaning does; of any other, that there is none.
fn put_refusal(number: u8, mark: u8, out: &mut [u8], at: usize) -> usize
    requires { at + 80 ≤ length out.old }
    ensures { WritesWithin (at + 80) out.old at (field (refusal_of number) mark) result out.new }
{
    match number {
        1 => put(b"no bytes", mark, out, at),
        2 => put(b"over 255 bytes", mark, out, at),
        3 => put(b"a byte that is no letter, digit, - or _", mark, out, at),
        4 => put(b"a subtag of 0 or over 8 bytes", mark, out, at),
        5 => put(
            b"a first subtag that is no language, script or root",
            mark,
            out,
            at,
        ),
        6 => put(b"a repeated singleton, variant or t key", mark, out, at),
        7 => put(
            b"a singleton or t key with nothing behind it",
            mark,
            out,
            at,
        ),
        15 => put(
            b"a subtag that can't stand there, before any extension",
            mark,
            out,
            at,
        ),
        16 => put(
            b"a subtag that can't stand there, in an extension",
            mark,
            out,
            at,
        ),
        _ => put(b"no such number", mark, out, at),
    }
}

// Writes the words of a number and the mark that ends them at the place at, and gives the next place.
pub fn put_meaning(number: u8, mark: u8, out: &mut [u8], at: usize) -> usize
    requires { at + 80 ≤ length out.old }
    ensures { WritesWithin (at + 80) out.old at (field (meaning_of number) mark) result out.new }
{
    match number {
        0 => put(b"done", mark, out, at),
        8 => put(b"no row of the likely table fits it", mark, out, at),
        9 => put(
            b"its canonical or maximised form is over 255 bytes",
            mark,
            out,
            at,
        ),
        10 => put(b"the output is too short", mark, out, at),
        11 => put(b"a table over 32,768 bytes", mark, out, at),
        12 => put(b"a row of wrong shape", mark, out, at),
        13 => put(b"a row not above the one before", mark, out, at),
        14 => put(b"a row that clashes with another", mark, out, at),
        17 => put(b"over 512 keys", mark, out, at),
        18 => put(b"over 1,000,000 lines", mark, out, at),
        _ => put_refusal(number, mark, out, at),
    }
}
