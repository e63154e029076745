// Opens aliases.tsv and likely.tsv in the current folder, reads usage lines from standard input as `bill` does, and prints a
// row for each line that the bill counts as refused: the line's number, the member, number and place of the refusal, the
// identifier and the meaning, parted by tabs. A bad table gives, after the header, its line and nothing else. What fails is
// said on standard error and ends the run; an input that is not written plainly is named there.
#![tactic(auto)]

ghost use Rattle.std.specs.Prelude.{◌≡◌, false, [], ◌≤◌, length};
ghost use Rattle.standard.specs.Table.{check, to_maximise};
ghost use Rattle.table.specs.Lines.{lines};
ghost use Rattle.operations.specs.Both.{TestedBoth};
ghost use Rattle.refused_rows.specs.Numbered.{rows_from, number_after};
ghost use Rattle.refused_rows.specs.Rows.{line_row};
ghost use Rattle.program_io.specs.Handed.{Room};
ghost use Rattle.program_io.specs.Printed.{PrintsLines, Headed};
ghost use Rattle.program_io.specs.Runs.{Replies, Runs};
ghost use Rattle.refused.specs.Header.{header};
ghost use Rattle.refused.specs.Lists.{Lists};

use operations::complete::form_buffer;
use operations::tables::{TestedTables, tested};
use program_io::output::Output;
use program_io::warning::{say_encoding, say_tables};
use program_io::{Run, Status, Streams, end, finish, input, load_table, output};
use std::io::{Stderr, Stdout};
use std::process::ExitCode;
use table::hints::{fill_hints, indexed, many};
use table_check::check_likely;

// The output as it was printed, and the number of the next line.
#[derive(Clone, Copy)]
struct Printed {
    output: Output,
    next: usize,
}

// Prints the rows of the refused lines of a piece whose first line has the number `first`, as many at a time as have room in
// out; none after a write that failed.
fn print_rows(
    stdout: Stdout,
    from: Output,
    first: usize,
    piece: &[u8],
    tables: TestedTables,
    form: &mut [u8],
    out: &mut [u8],
) -> Printed
    requires { (length form.old ≡ 256) × (2400 ≤ length out.old) × (from.failed ≡ false) }
    ensures { let ls = lines piece.now in let tables = tables.entry in
        PrintsLines (rows_from (line_row tables.aliases.rows.now tables.likely.rows.now) first) ls from result.output
        × (result.output.failed ≡ false → result.next ≡ number_after first ls) }
{
    let mut o = from;
    let mut next = first;
    let mut at = 0;
    // a step is as long as the lines whose rows had room
    while at < piece.len() {
        let k = refused_rows::rows_hinted(next, &piece[at..], tables, form, out);
        let len = k.len;
        o = output::print(stdout, o, &out[..len]);
        next = k.next;
        if output::has_failed(o) {
            return Printed { output: o, next };
        }
        at += k.used;
    }
    Printed { output: o, next }
}

// Behind the header, reads to the end of the input, or until reading or printing fails. The first lines show how the input is written.
fn answer_input(
    streams: Streams,
    from: Output,
    tables: TestedTables,
    form: &mut [u8],
    block: &mut [u8],
    piece: &mut [u8],
    out: &mut [u8],
) -> Run
    requires { (length form.old ≡ 256) × Room (length block.old) (length piece.old) × (2400 ≤ length out.old) × Headed header from }
    ensures { Replies (Lists tables.entry.aliases.rows.now tables.entry.likely.rows.now) result }
{
    let mut input = input::begin();
    let mut output = from;
    let mut next = 1;
    // until the input ends, or reading or printing fails
    loop {
        input = input::next(streams.stdin, input, block, piece);
        if input::has_failed(input) {
            return Run {
                number: 0,
                input,
                output,
            };
        }
        let whole = input::whole(input);
        say_first(streams.stderr, next, &piece[..whole]);
        let p = print_rows(
            streams.stdout,
            output,
            next,
            &piece[..whole],
            tables,
            form,
            out,
        );
        let o = p.output;
        output = o;
        next = p.next;
        if output::has_failed(output) {
            return Run {
                number: 0,
                input,
                output,
            };
        }
        if input::is_ended(input) {
            return Run {
                number: 0,
                input,
                output,
            };
        }
    }
}

// Says of the first lines how they are written, where they can't be read as they are meant.
fn say_first(stderr: Stderr, next: usize, lines: &[u8]) {
    if next == 1 {
        say_encoding(stderr, b"refused", lines);
    }
}

// Room for the rows of some hundred lines at least.
fn out_buffer() -> [u8; 262144]
    ensures { 262144 ≡ length result }
{
    [0; 262144]
}

// Answers the input over tables that passed their check; their hints and the rooms are made once.
fn answer(streams: Streams, from: Output, aliases: &[u8], likely: &[u8]) -> Run
    requires { TestedBoth aliases.now likely.now × Headed header from }
    ensures { Replies (Lists aliases.now likely.now) result }
{
    let mut a = many();
    fill_hints(aliases, &mut a);
    let mut l = many();
    fill_hints(likely, &mut l);
    let tables = tested(indexed(aliases, &a), indexed(likely, &l));
    let mut form = form_buffer();
    let mut block = input::block_buffer();
    let mut piece = input::piece_buffer();
    let mut out = out_buffer();
    answer_input(
        streams, from, tables, &mut form, &mut block, &mut piece, &mut out,
    )
}

// Prints the header, tests the tables, and answers the input.
fn run(streams: Streams, aliases: &[u8], likely: &[u8]) -> Run
    ensures { let aliases = aliases.entry.now in let likely = likely.entry.now in
        Runs header (Lists aliases likely) (check to_maximise aliases likely []) result }
{
    let o = output::print(
        streams.stdout,
        output::begin(),
        b"line\tmember\tnumber\tplace\tidentifier\tmeaning\n",
    );
    if output::has_failed(o) {
        return Run {
            number: 0,
            input: input::begin(),
            output: o,
        };
    }
    match check_likely(aliases, likely) {
        Ok(()) => answer(streams, o, aliases, likely),
        Err(fault) => {
            let number = fault.number();
            let output = program_io::print_table(
                streams.stdout,
                o,
                number,
                fault.place,
                fault.table_number(),
            );
            say_tables(streams.stderr, b"refused", number, output);
            Run {
                number,
                input: input::begin(),
                output,
            }
        }
    }
}

fn main(rt: HostRuntime) -> ExitCode {
    let streams = Streams {
        stdin: rt.stdin(),
        stdout: rt.stdout(),
        stderr: rt.stderr(),
    };
    let stderr = streams.stderr;
    let mut aliases = program_io::buffer();
    let mut likely = program_io::buffer();
    let Some(aliases_len) = load_table(&rt, stderr, b"refused", "aliases.tsv", &mut aliases) else {
        return finish(&rt, Status::Failed);
    };
    let Some(likely_len) = load_table(&rt, stderr, b"refused", "likely.tsv", &mut likely) else {
        return finish(&rt, Status::Failed);
    };
    let r = run(streams, &aliases[..aliases_len], &likely[..likely_len]);
    end(&rt, stderr, b"refused", r)
}
