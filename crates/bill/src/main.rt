// Opens aliases.tsv and likely.tsv in the current folder, reads usage lines from standard input (a member, a tab and an
// identifier), and prints the bill. Bytes after the last 0A are a line unless there are none. A bill whose input could not
// be read to its end is not printed; a refused one reads no further. What failed, why a bill is refused, and how an input is
// written that is not plain lines, is said on standard error.
#![tactic(auto)]

ghost use Rattle.std.specs.Prelude.{◌≡◌, List, [], ◌≤◌, length, take};
ghost use Rattle.standard.specs.Delivery.{Bytes};
ghost use Rattle.operations.specs.Both.{TestedBoth};
ghost use Rattle.bill_lines.specs.Held.{Held};
ghost use Rattle.program_io.specs.Handed.{Room};
ghost use Rattle.program_io.specs.Printed.{IsPrinted};
ghost use Rattle.bill.specs.Billed.{Bills, Makes};

use bill_lines::{Counts, add_hinted};
use canonical::buffer::buffer;
use operations::tables::{TestedTables, tested};
use program_io::input::Input;
use program_io::warning::{say_bill, say_encoding};
use program_io::{Run, Status, Streams, end, finish, input, load_table, output};
use std::io::Stderr;
use std::process::ExitCode;
use table::hints::{fill_hints, indexed, many};

// The counts of the bill, and the input as it was read.
#[derive(Clone, Copy)]
struct Billed {
    counts: Counts,
    input: Input,
}

// The length of the bill's text, the number of its refusal or 0, and the input as it was read.
#[derive(Clone, Copy)]
struct Made {
    len: usize,
    number: u8,
    input: Input,
}

// Says once how an input is written whose first lines these are.
fn mention(stderr: Stderr, told: bool, lines: &[u8]) -> bool {
    if told || lines.is_empty() {
        return told;
    }
    say_encoding(stderr, b"bill", lines);
    true
}

// Takes the input into the bill, to its end, or until reading fails or the bill is refused.
fn take_input(
    streams: Streams,
    from: Counts,
    tables: TestedTables,
    block: &mut [u8],
    piece: &mut [u8],
    keys: &mut [u8],
    counts: &mut [u64],
    out: &mut [u8],
) -> Billed
    requires { (255 ≤ length out.old) × Room (length block.old) (length piece.old) × (from.number ≡ 0)
        × Held tables.aliases.rows.now tables.likely.rows.now [] from keys.old counts.old }
    ensures { (bs : List Bytes) × Bills tables.entry.aliases.rows.now tables.entry.likely.rows.now bs result keys.new counts.new }
{
    let mut input = input::begin();
    let mut c = from;
    let mut told = false;
    // until the input ends, reading fails or the bill is refused
    loop {
        input = input::next(streams.stdin, input, block, piece);
        if input::has_failed(input) {
            return Billed { counts: c, input };
        }
        let whole = input::whole(input);
        told = mention(streams.stderr, told, &piece[..whole]);
        c = add_hinted(c, &piece[..whole], tables, keys, counts, out);
        if c.number != 0 {
            return Billed { counts: c, input };
        }
        if input::is_ended(input) {
            return Billed { counts: c, input };
        }
    }
}

// Room for the keys of a bill.
fn key_room() -> [u8; 16384]
    ensures { length result ≡ 16384 }
{
    [0; 16384]
}

// Room for their members' marks and deliveries.
fn count_room() -> [u64; 1024]
    ensures { length result ≡ 1024 }
{
    [0; 1024]
}

// Takes the input into the bill over tables that passed their check: their hints and the rooms are made once.
fn take_tested(
    streams: Streams,
    from: Counts,
    aliases: &[u8],
    likely: &[u8],
    block: &mut [u8],
    keys: &mut [u8],
    counts: &mut [u64],
) -> Billed
    requires { TestedBoth aliases.now likely.now × (65536 ≤ length block.old) × (length block.old ≤ 262144) × (from.number ≡ 0)
        × Held aliases.now likely.now [] from keys.old counts.old }
    ensures { (bs : List Bytes) × Bills aliases.now likely.now bs result keys.new counts.new }
{
    let mut alias_hints = many();
    fill_hints(aliases, &mut alias_hints);
    let mut likely_hints = many();
    fill_hints(likely, &mut likely_hints);
    let tables = tested(
        indexed(aliases, &alias_hints),
        indexed(likely, &likely_hints),
    );
    let mut piece = input::piece_buffer();
    let mut out = buffer();
    take_input(
        streams, from, tables, block, &mut piece, keys, counts, &mut out,
    )
}

// Makes the text of the bill at the front of the block; none where reading failed.
fn make_text(streams: Streams, aliases: &[u8], likely: &[u8], block: &mut [u8]) -> Made
    requires { (65536 ≤ length block.old) × (length block.old ≤ 262144) }
    ensures in_bounds { result.len ≤ length block.new }
    ensures prefix { result.len ≡ length (take result.len block.new) }
    ensures makes { let block' = block.new in let aliases = aliases.entry.now in let likely = likely.entry.now in
        (bs : List Bytes) × Makes aliases likely bs result.number result.input (λ text. take result.len block' ≡ text) }
{
    let mut keys = key_room();
    let mut counts = count_room();
    let c = bill_lines::start(aliases, likely);
    if c.number != 0 {
        let len = bill_lines::text::write(c, &keys, &counts, block);
        return Made {
            len,
            number: c.number,
            input: input::begin(),
        };
    }
    let billed = take_tested(streams, c, aliases, likely, block, &mut keys, &mut counts);
    let input = billed.input;
    if input::has_failed(input) {
        return Made {
            len: 0,
            number: 0,
            input,
        };
    }
    let len = bill_lines::text::write(billed.counts, &keys, &counts, block);
    Made {
        len,
        number: billed.counts.number,
        input,
    }
}

// Makes the bill and prints it; that it is refused is said.
fn run(streams: Streams, aliases: &[u8], likely: &[u8]) -> Run
    ensures { (bs : List Bytes) × Makes aliases.now likely.now bs result.number result.input (IsPrinted result.output) }
{
    let mut block = input::block_buffer();
    let made = make_text(streams, aliases, likely, &mut block);
    let output = output::print(streams.stdout, output::begin(), &block[..made.len]);
    say_bill(streams.stderr, b"bill", made.number, output);
    Run {
        number: made.number,
        input: made.input,
        output,
    }
}

fn main(rt: HostRuntime) -> ExitCode {
    let streams = Streams {
        stdin: rt.stdin(),
        stdout: rt.stdout(),
        stderr: rt.stderr(),
    };
    let mut aliases = program_io::buffer();
    let mut likely = program_io::buffer();
    let Some(aliases_len) = load_table(&rt, streams.stderr, b"bill", "aliases.tsv", &mut aliases)
    else {
        return finish(&rt, Status::Failed);
    };
    let Some(likely_len) = load_table(&rt, streams.stderr, b"bill", "likely.tsv", &mut likely)
    else {
        return finish(&rt, Status::Failed);
    };
    let r = run(streams, &aliases[..aliases_len], &likely[..likely_len]);
    end(&rt, streams.stderr, b"bill", r)
}
