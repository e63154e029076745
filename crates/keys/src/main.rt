// Opens aliases.tsv and likely.tsv in the current folder, reads identifiers from standard input, one a line, and prints of
// each what was asked, the number and the minimised form, parted by tabs. Bytes after the last 0A are a line unless there
// are none. A bad table gives, after the header, its line and nothing else. What fails is said on standard error and ends the
// run.
#![tactic(auto)]

ghost use Rattle.std.specs.Prelude.{◌≡◌, [], length};
ghost use Rattle.standard.specs.Table.{check, to_maximise};
ghost use Rattle.lines.specs.Pieces.{rows_text};
ghost use Rattle.operations.specs.Both.{TestedBoth};
ghost use Rattle.key_rows.specs.Keys.{key_row};
ghost use Rattle.program_io.specs.Printed.{Answers, headed, Headed};
ghost use Rattle.program_io.specs.Runs.{Replies, Runs};
ghost use Rattle.keys.specs.Header.{header};

use answer_lines::{refuse, unread};
use key_rows::rows::KeyRows;
use operations::tables::tested;
use program_io::output::Output;
use program_io::{Run, Status, Streams, end, finish, load_table, output};
use std::process::ExitCode;
use table::hints::{fill_hints, indexed, many};
use table_check::check_likely;

// Room for the rows of a piece of usual lines: `en` and its 0A are 3 bytes, its row is 8.
fn out_buffer() -> [u8; 786432]
    ensures { 786432 ≡ length result }
{
    [0; 786432]
}

// Answers the input over tables that passed their check; their hints and the room for rows are made once.
fn answer(streams: Streams, from: Output, aliases: &[u8], likely: &[u8]) -> Run
    requires { TestedBoth aliases.now likely.now × Headed header from }
    ensures { Replies (Answers (headed header (rows_text (key_row aliases.now likely.now)))) result }
{
    let mut a = many();
    fill_hints(aliases, &mut a);
    let mut l = many();
    fill_hints(likely, &mut l);
    let tables = tested(indexed(aliases, &a), indexed(likely, &l));
    let mut out = out_buffer();
    answer_lines::answer(streams, from, &KeyRows { tables }, &mut out)
}

// Prints the header, tests the tables, and answers the input.
fn run(streams: Streams, aliases: &[u8], likely: &[u8]) -> Run
    ensures { let aliases = aliases.entry.now in let likely = likely.entry.now in
        Runs header (Answers (headed header (rows_text (key_row aliases likely)))) (check to_maximise aliases likely []) result }
{
    let o = output::print(streams.stdout, output::begin(), b"asked\tnumber\tkept\n");
    if output::has_failed(o) {
        return unread(0, o);
    }
    match check_likely(aliases, likely) {
        Ok(()) => answer(streams, o, aliases, likely),
        Err(fault) => refuse(streams, b"keys", o, fault),
    }
}

fn main(rt: HostRuntime) -> ExitCode {
    let streams = Streams {
        stdin: rt.stdin(),
        stdout: rt.stdout(),
        stderr: rt.stderr(),
    };
    let mut a = program_io::buffer();
    let mut l = program_io::buffer();
    let Some(a_len) = load_table(&rt, streams.stderr, b"keys", "aliases.tsv", &mut a) else {
        return finish(&rt, Status::Failed);
    };
    let Some(l_len) = load_table(&rt, streams.stderr, b"keys", "likely.tsv", &mut l) else {
        return finish(&rt, Status::Failed);
    };
    let r = run(streams, &a[..a_len], &l[..l_len]);
    end(&rt, streams.stderr, b"keys", r)
}
