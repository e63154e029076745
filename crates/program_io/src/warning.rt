// What is said of refused tables and bills, and of an input that is not written as lines that can be read as they are meant.
use crate::output::{Output, is_unread};
use crate::say;
use crate::system::tell;
use encoding::{Ending, Front, ending_of, front_of};
use meaning::put_meaning;
use std::io::Stderr;

// The words of a number and a mark, on standard error.
fn say_meaning(stderr: Stderr, number: u8, mark: u8) {
    let mut words = [0u8; 80];
    let end = put_meaning(number, mark, &mut words, 0);
    tell(stderr, &words[..end]);
}

// Says on standard error that the tables are refused, and why; nothing where nobody reads what was printed.
pub fn say_tables(stderr: Stderr, program: &[u8], number: u8, printed: Output) {
    if is_unread(printed) {
        return;
    }
    tell(stderr, program);
    tell(stderr, b": the tables are refused: ");
    say_meaning(stderr, number, b';');
    tell(stderr, b" tables_check shows where\n");
}

// The same of a bill, whose tables may be the cause; nothing of one that is not refused.
pub fn say_bill(stderr: Stderr, program: &[u8], number: u8, printed: Output) {
    if number == 0 {
        return;
    }
    if number < 15 {
        return say_tables(stderr, program, number, printed);
    }
    if is_unread(printed) {
        return;
    }
    tell(stderr, program);
    tell(stderr, b": the bill is refused: ");
    say_meaning(stderr, number, b'\n');
}

// Says how the lines end; nothing where it is by 0A alone.
fn say_ending(stderr: Stderr, program: &[u8], e: Ending) {
    match e {
        Ending::Lf => {}
        Ending::CrLf => say(stderr, program, b"the lines end in CR LF"),
        Ending::Cr => say(
            stderr,
            program,
            b"the first line has CR in it, as where lines end in CR alone",
        ),
    }
}

// The same of an input with a byte order mark in front.
fn say_mark(stderr: Stderr, program: &[u8], e: Ending) {
    match e {
        Ending::Lf => say(stderr, program, b"the input begins with a byte order mark"),
        Ending::CrLf => say(
            stderr,
            program,
            b"the input begins with a byte order mark, and its lines end in CR LF",
        ),
        Ending::Cr => say(
            stderr,
            program,
            b"the input begins with a byte order mark, and its first line has CR in it",
        ),
    }
}

// Says on standard error how the input is written that begins with these lines; nothing where it is plain.
pub fn say_encoding(stderr: Stderr, program: &[u8], lines: &[u8]) {
    let e = ending_of(lines);
    let f = front_of(lines);
    match f {
        Front::Plain => say_ending(stderr, program, e),
        Front::ByteOrderMark => say_mark(stderr, program, e),
        Front::Utf16 => say(stderr, program, b"the input is UTF-16"),
    }
}
