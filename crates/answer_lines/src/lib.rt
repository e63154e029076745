// Inner. What `keys` and `inspect` share: the rows of all lines of the input are printed.
#![tactic(auto)]

ghost use Rattle.std.specs.Prelude.{◌≡◌, false, [], ◌≤◌, length};
ghost use Rattle.standard.specs.Delivery.{Bytes};
ghost use Rattle.table.specs.Lines.{lines};
ghost use Rattle.table_check.specs.Verdicts.{number_of, table_of};
ghost use Rattle.tsv.specs.Fields.{table_text};
ghost use Rattle.lines.specs.Pieces.{rows_text};
ghost use Rattle.program_io.specs.Handed.{Room, Going};
ghost use Rattle.program_io.specs.Printed.{Prints, PrintsLines, Answers, headed, Headed};
ghost use Rattle.program_io.specs.Runs.{Replies};

use lines::rows::{LineRows, write_rows};
use program_io::input::Input;
use program_io::output::Output;
use program_io::warning::say_tables;
use program_io::{Run, Streams, input, output, print_table};
use std::io::Stdout;
use table_check::Fault;

// Prints the rows of the lines of a piece, as many at a time as have room in out; none after a write that failed.
fn print_rows<R: LineRows>(
    stdout: Stdout,
    from: Output,
    rows: &R,
    piece: &[u8],
    out: &mut [u8],
) -> Output
    requires room { R.most ≤ length out.old }
    requires unfailed { from.failed ≡ false }
    ensures { PrintsLines (rows_text (R.row_of rows.now)) (lines piece.now) from result }
{
    let mut o = from;
    let mut at = 0;
    // a step is as long as the lines whose rows had room
    while at < piece.len() {
        let written = write_rows(rows, &piece[at..], out);
        let len = written.len;
        o = output::print(stdout, o, &out[..len]);
        if output::has_failed(o) {
            return o;
        }
        at += written.used;
    }
    o
}

// A run over tables that were not refused.
fn replied(input: Input, output: Output) -> Run
    ensures number { result.number ≡ 0 }
    ensures input { result.input ≡ input }
    ensures output { result.output ≡ output }
{
    Run {
        number: 0,
        input,
        output,
    }
}

// Behind what was printed so far, reads to the end of the input, or until reading or printing fails.
fn answer_input<R: LineRows>(
    streams: Streams,
    from: Output,
    rows: &R,
    block: &mut [u8],
    piece: &mut [u8],
    out: &mut [u8],
) -> Run
    requires buffers { Room (length block.old) (length piece.old) }
    requires room { R.most ≤ length out.old }
    requires unfailed { from.failed ≡ false }
    ensures { let rows = rows.entry.now in
        ((header : Bytes) → Headed header from → Replies (Answers (headed header (rows_text (R.row_of rows)))) result) }
{
    let mut input = input::begin();
    let mut output = from;
    // until the input ends, or reading or printing fails
    loop {
        input = input::next(streams.stdin, input, block, piece);
        if input::has_failed(input) {
            return replied(input, output);
        }
        let whole = input::whole(input);
        output = print_rows(streams.stdout, output, rows, &piece[..whole], out);
        if output::has_failed(output) {
            return replied(input, output);
        }
        if input::is_ended(input) {
            return replied(input, output);
        }
    }
}

// The same, with room for the input made.
pub fn answer<R: LineRows>(streams: Streams, from: Output, rows: &R, out: &mut [u8]) -> Run
    requires room { R.most ≤ length out.old }
    requires unfailed { from.failed ≡ false }
    ensures { let rows = rows.entry.now in
        ((header : Bytes) → Headed header from → Replies (Answers (headed header (rows_text (R.row_of rows)))) result) }
{
    let mut block = input::block_buffer();
    let mut piece = input::piece_buffer();
    answer_input(streams, from, rows, &mut block, &mut piece, out)
}

// A run that read nothing.
pub fn unread(number: u8, output: Output) -> Run
    ensures number { result.number ≡ number }
    ensures input { (piece : Bytes) → Going [] result.input piece }
    ensures output { result.output ≡ output }
{
    let run = replied(input::begin(), output);
    Run { number, ..run }
}

// A run over tables that do not pass the check: their line is printed, and nothing read.
pub fn refuse(streams: Streams, program: &[u8], from: Output, fault: Fault) -> Run
    ensures number { result.number ≡ number_of fault }
    ensures input { (piece : Bytes) → Going [] result.input piece }
    ensures printed { Prints from (length (table_text (number_of fault) fault.place (table_of fault))) result.output }
{
    let number = fault.number();
    let output = print_table(
        streams.stdout,
        from,
        number,
        fault.place,
        fault.table_number(),
    );
    say_tables(streams.stderr, program, number, output);
    unread(number, output)
}
