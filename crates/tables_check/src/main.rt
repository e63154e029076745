// Checks aliases.tsv, likely.tsv and parents.tsv in the current folder, and prints one line: `table`, number, table and place,
// then the line of the file, the row and the meaning in words, parted by tabs. A file that can't be opened counts as zero
// bytes; one that can't be read ends the run, with no line printed.
#![tactic(auto)]

ghost use Rattle.std.specs.Prelude.{◌≡◌, length};
ghost use Rattle.operations.specs.Answer.{answer_by, checked_is};
ghost use Rattle.tables_check.specs.Tells.{Tells};

use operations::delivery::Answer;
use program_io::{Run, Status, Streams, buffer, end, finish, input, load_table, output};
use std::io::Stdout;
use std::process::ExitCode;
use table_check::Fault;

// Room for the line.
fn line_buffer() -> [u8; 2048]
    ensures { length result ≡ 2048 }
{
    [0; 2048]
}

// Number, place and table of what is wrong with the tables, all 0 where nothing is.
fn verdict_of(checked: Result<(), Fault>) -> Answer
    ensures { result ≡ answer_by (checked_is checked) }
{
    match checked {
        Ok(()) => Answer {
            number: 0,
            place: 0,
            table: 0,
            len: 0,
            steps: 0,
        },
        Err(fault) => Answer {
            number: fault.number(),
            place: fault.place,
            table: fault.table_number(),
            len: 0,
            steps: 0,
        },
    }
}

// Checks the tables, and prints the line.
fn run(stdout: Stdout, aliases: &[u8], likely: &[u8], parents: &[u8]) -> Run
    ensures { Tells aliases.now likely.now parents.now result }
{
    let verdict = verdict_of(altazhbey::check(aliases, likely, parents));
    let number = verdict.number;
    let mut out = line_buffer();
    let len = table_report::write(
        number,
        verdict.place,
        verdict.table,
        aliases,
        likely,
        parents,
        &mut out,
    );
    let output = output::print(stdout, output::begin(), &out[..len]);
    Run {
        number,
        input: input::begin(),
        output,
    }
}

fn main(rt: HostRuntime) -> ExitCode {
    let streams = Streams {
        stdin: rt.stdin(),
        stdout: rt.stdout(),
        stderr: rt.stderr(),
    };
    let stderr = streams.stderr;
    let mut aliases = buffer();
    let mut likely = buffer();
    let mut parents = buffer();
    let Some(aliases_len) = load_table(&rt, stderr, b"tables_check", "aliases.tsv", &mut aliases)
    else {
        return finish(&rt, Status::Failed);
    };
    let Some(likely_len) = load_table(&rt, stderr, b"tables_check", "likely.tsv", &mut likely)
    else {
        return finish(&rt, Status::Failed);
    };
    let Some(parents_len) = load_table(&rt, stderr, b"tables_check", "parents.tsv", &mut parents)
    else {
        return finish(&rt, Status::Failed);
    };
    let r = run(
        streams.stdout,
        &aliases[..aliases_len],
        &likely[..likely_len],
        &parents[..parents_len],
    );
    end(&rt, stderr, b"tables_check", r)
}
