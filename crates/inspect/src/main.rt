// Reads identifiers from standard input, one a line, and prints what reading reports of each, and its meaning in words. Where
// the current folder has aliases.tsv or likely.tsv, the meaning says also why an identifier that is read is no key; a bad
// table then gives, after the header, its line and nothing else. Bytes after the last 0A are a line unless there are none. Of
// a line only the first 260 bytes are kept: with more than 255 it is refused. What fails is said on standard error and ends
// the run.
#![tactic(auto)]

ghost use Rattle.std.specs.Prelude.{◌≡◌, true, [], length};
ghost use Rattle.std.proofs.Math.Option.{none};
ghost use Rattle.standard.specs.Table.{check, to_maximise};
ghost use Rattle.lines.specs.Pieces.{rows_text};
ghost use Rattle.operations.specs.Both.{TestedBoth};
ghost use Rattle.inspect_rows.specs.Rows.{row_of, line_row};
ghost use Rattle.program_io.specs.declared.output.Output.{Output};
ghost use Rattle.program_io.specs.Printed.{Prints, Answers, headed, Headed};
ghost use Rattle.program_io.specs.Runs.{Replies, Runs};
ghost use Rattle.inspect.specs.Header.{header};

use answer_lines::{refuse, unread};
use inspect_rows::rows::{KeyedRows, ReadRows};
use operations::tables::tested;
use program_io::output::Output;
use program_io::{Run, Status, Streams, end, finish, load_table, output};
use std::env::Env;
use std::io::Stdout;
use std::process::ExitCode;
use std::rt::Files;
use table::hints::{fill_hints, indexed, many};
use table_check::check_likely;

// Room for the rows of a piece.
fn out_buffer() -> [u8; 65536]
    ensures { 65536 ≡ length result }
{
    [0; 65536]
}

// Prints the header.
fn print_header(stdout: Stdout) -> Output
    ensures { (o : Output) × (o.bytes ≡ 0) × Prints o (length header) result }
{
    output::print(
        stdout,
        output::begin(),
        b"asked\tnumber\tplace\tlanguage\tscript\tregion\tvariants\textensions\tmeaning\n",
    )
}

// Prints the header, and answers the input with no tables.
fn run_read(streams: Streams) -> Run
    ensures { Runs header (Answers (headed header (rows_text (row_of 0)))) none result }
{
    let o = print_header(streams.stdout);
    if output::has_failed(o) {
        return unread(0, o);
    }
    let mut out = out_buffer();
    answer_lines::answer(streams, o, &ReadRows {}, &mut out)
}

// Answers the input over tables that passed their check; their hints and the room for rows are made once.
fn answer_keyed(streams: Streams, from: Output, aliases: &[u8], likely: &[u8]) -> Run
    requires { TestedBoth aliases.now likely.now × Headed header from }
    ensures { Replies (Answers (headed header (rows_text (line_row true aliases.now likely.now)))) result }
{
    let mut a = many();
    fill_hints(aliases, &mut a);
    let mut l = many();
    fill_hints(likely, &mut l);
    let tables = tested(indexed(aliases, &a), indexed(likely, &l));
    let mut out = out_buffer();
    answer_lines::answer(streams, from, &KeyedRows { tables }, &mut out)
}

// Prints the header, tests the tables, and answers the input.
fn run_keyed(streams: Streams, aliases: &[u8], likely: &[u8]) -> Run
    ensures { let aliases = aliases.entry.now in let likely = likely.entry.now in
        Runs header (Answers (headed header (rows_text (line_row true aliases likely)))) (check to_maximise aliases likely []) result }
{
    let o = print_header(streams.stdout);
    if output::has_failed(o) {
        return unread(0, o);
    }
    match check_likely(aliases, likely) {
        Ok(()) => answer_keyed(streams, o, aliases, likely),
        Err(fault) => refuse(streams, b"inspect", o, fault),
    }
}

// Has the current folder one of the two tables, even one that can't be opened?
fn has_tables(rt: &impl Files) -> bool {
    program_io::exists(rt, "aliases.tsv") || program_io::exists(rt, "likely.tsv")
}

// With the tables of the current folder.
fn main_keyed(rt: &(impl Files + Env), streams: Streams) -> ExitCode {
    let mut a = program_io::buffer();
    let mut l = program_io::buffer();
    let Some(a_len) = load_table(rt, streams.stderr, b"inspect", "aliases.tsv", &mut a) else {
        return finish(rt, Status::Failed);
    };
    let Some(l_len) = load_table(rt, streams.stderr, b"inspect", "likely.tsv", &mut l) else {
        return finish(rt, Status::Failed);
    };
    let r = run_keyed(streams, &a[..a_len], &l[..l_len]);
    end(rt, streams.stderr, b"inspect", r)
}

fn main(rt: HostRuntime) -> ExitCode {
    let streams = Streams {
        stdin: rt.stdin(),
        stdout: rt.stdout(),
        stderr: rt.stderr(),
    };
    if has_tables(&rt) {
        return main_keyed(&rt, streams);
    }
    let r = run_read(streams);
    end(&rt, streams.stderr, b"inspect", r)
}
