// Inner, for the programs, and the one library that calls the operating system: tables of the current folder, standard
// input and output, what is said on standard error, and the status that a run ends with. A failure is always said.
#![tactic(auto)]

pub mod input;
pub mod output;
pub mod system;
pub mod warning;

ghost use Rattle.std.specs.Prelude.{◌≡◌, ◌≤◌, IfOk, IfSome, length, take};
ghost use Rattle.tsv.specs.Fields.{table_text};
ghost use Rattle.program_io.specs.Calls.{loaded_by};
ghost use Rattle.program_io.specs.Printed.{Prints};
ghost use Rattle.program_io.specs.Status.{digit_of, status_of, EndsAs, Ends};
ghost use Rattle.std.specs.Process.{exit_status};

use crate::input::Input;
use crate::output::Output;
pub use crate::system::Streams;
use crate::system::{cause_of, tell};
use std::env::{Env, FillError};
use std::fmt::InlineText;
use std::fs;
use std::io::{Error, ErrorKind, Read, Stderr, Stdout};
use std::process::ExitCode;
use std::rt::Files;
use tsv::table_line;

// One byte more than a table may have, so that no table is cut to one that passes.
pub fn buffer() -> [u8; 32769]
    ensures { 32769 ≡ length result }
{
    [0; 32769]
}

// Says a line on standard error.
pub fn say(stderr: Stderr, program: &[u8], what: &[u8]) {
    tell(stderr, program);
    tell(stderr, b": ");
    tell(stderr, what);
    tell(stderr, b"\n");
}

// Says there what a call that failed was for, what follows from it, and why it failed by the system's words.
fn say_failed(stderr: Stderr, program: &[u8], what: &[u8], so: &[u8], cause: i32) {
    tell(stderr, program);
    tell(stderr, b": ");
    tell(stderr, what);
    tell(stderr, so);
    tell(stderr, b": ");
    let text = InlineText::<128>::of(Error::from_raw_os_error(cause));
    tell(stderr, words_of(text.as_str()).as_bytes());
    tell(stderr, b"\n");
}

// The system's words for an error, without its number, which std puts behind them.
fn words_of(text: &str) -> &str {
    match text.split_once(" (os error ") {
        Some((words, _)) => words,
        None => text,
    }
}

// Why a file was not read, with the system's number: it can't be opened, or it can't be read.
#[derive(Clone, Copy)]
enum Unloaded {
    Missing(i32),
    Failed(i32),
}

// How many bytes were read of a file, where a read moved nothing more: all of them at its end.
fn ended(read: Result<usize, i32>, len: usize) -> Result<usize, i32>
    ensures { loaded_by read len result }
{
    match read {
        Ok(_) => Ok(len),
        Err(cause) => Err(cause),
    }
}

// Fills the buffer, up to its end or the file's, and gives how many bytes those are.
fn fill<R: Read>(from: &mut R, buffer: &mut [u8]) -> Result<usize, i32>
    ensures { IfOk result (λ n. n ≤ length buffer.old) }
{
    let mut len = 0;
    // a step is as long as what was read
    while len < buffer.len() {
        match system::read(from, &mut buffer[len..]) {
            Ok(n) if n > 0 => len += n,
            read => return ended(read, len),
        }
    }
    Ok(len)
}

// Reads the file into the buffer.
fn load<R: Files>(rt: &R, path: &str, buffer: &mut [u8]) -> Result<usize, Unloaded>
    ensures { IfOk result (λ n. n ≤ length buffer.old) }
{
    match fs::open(rt, path) {
        Ok(mut file) => match fill(&mut file, buffer) {
            Ok(len) => Ok(len),
            Err(cause) => Err(Unloaded::Failed(cause)),
        },
        Err(e) => Err(Unloaded::Missing(cause_of(&e))),
    }
}

// Is there such a file, whether or not it can be opened? A link that leads nowhere is none.
pub fn exists(rt: &impl Files, path: &str) -> bool {
    match fs::open(rt, path) {
        Ok(_) => true,
        Err(e) => {
            let kind = e.kind();
            kind != ErrorKind::NotFound && kind != ErrorKind::FilesystemLoop
        }
    }
}

// Reads a table of the current folder into the buffer, and gives its length. One that can't be opened counts as zero bytes,
// and is named; one that can't be read is no table, and is named too.
pub fn load_table(
    rt: &impl Files,
    stderr: Stderr,
    program: &[u8],
    name: &str,
    buffer: &mut [u8],
) -> Option<usize>
    ensures in_bounds { IfSome result (λ len. len ≤ length buffer.new) }
    ensures prefix { IfSome result (λ len. len ≡ length (take len buffer.new)) }
{
    match load(rt, name, buffer) {
        Ok(len) => Some(len),
        Err(Unloaded::Missing(cause)) => missing(stderr, program, name, cause),
        Err(Unloaded::Failed(cause)) => unread(stderr, program, name, cause),
    }
}

// A table of zero bytes, and a line that says so.
fn missing(stderr: Stderr, program: &[u8], name: &str, cause: i32) -> Option<usize>
    ensures { result ≡ Some 0 }
{
    say_failed(
        stderr,
        program,
        name.as_bytes(),
        b" counts as zero bytes",
        cause,
    );
    Some(0)
}

// No table, and a line that says so.
fn unread(stderr: Stderr, program: &[u8], name: &str, cause: i32) -> Option<usize>
    ensures { result ≡ None }
{
    say_failed(stderr, program, name.as_bytes(), b"", cause);
    None
}

// Prints the line of the tables' check: `table`, number, table, place.
pub fn print_table(stdout: Stdout, o: Output, number: u8, place: usize, table: u8) -> Output
    ensures { Prints o (length (table_text number place table)) result }
{
    let t = table_line(number, place, table);
    let len = t.len;
    let bytes = t.bytes;
    output::print(stdout, o, &bytes[..len])
}

// A run: 0, or the number of refused tables or of a refused bill; the input as it was read, and the output as it was printed.
#[derive(Clone, Copy)]
pub struct Run {
    pub number: u8,
    pub input: Input,
    pub output: Output,
}

// What a run came to: done; input or output failed; tables or the bill refused.
#[derive(Clone, Copy)]
pub enum Status {
    Done,
    Failed,
    Refused,
}

// What the run came to; a failure is said.
pub fn status_of(stderr: Stderr, program: &[u8], r: Run) -> Status
    ensures { result ≡ status_of r.number r.input.last r.output.failed }
{
    if output::has_failed(r.output) {
        say_failed(stderr, program, b"standard output", b"", r.output.cause);
        return Status::Failed;
    }
    if r.number != 0 {
        return Status::Refused;
    }
    if input::has_failed(r.input) {
        say_failed(stderr, program, b"standard input", b"", r.input.cause);
        return Status::Failed;
    }
    Status::Done
}

// The exit status, as a digit.
fn digit_of(s: Status) -> u8
    ensures { result ≡ digit_of s }
{
    match s {
        Status::Done => b'0',
        Status::Failed => b'1',
        Status::Refused => b'3',
    }
}

// Was the program started with an argument?
fn has_argument(rt: &impl Env) -> bool {
    match rt.arg(1, &mut []) {
        Ok(_) => true,
        Err(FillError::TooLong) => true,
        Err(FillError::NotPresent) => false,
    }
}

// Ends a run: a program that was started with an argument has the status by its digit, another has 0.
pub fn finish(rt: &impl Env, s: Status) -> ExitCode
    ensures { EndsAs s (exit_status result) }
{
    if !has_argument(rt) {
        return ExitCode::SUCCESS;
    }
    ExitCode::from(digit_of(s) - b'0')
}

// Ends a run by what it came to. Where nobody reads the output any more, it ends without a word, with the status that a
// shell gives a program which SIGPIPE ended.
pub fn end(rt: &impl Env, stderr: Stderr, program: &[u8], r: Run) -> ExitCode
    ensures { Ends r.number r.input.last r.output.failed (exit_status result) }
{
    if output::is_unread(r.output) {
        return ExitCode::from(141);
    }
    finish(rt, status_of(stderr, program, r))
}
