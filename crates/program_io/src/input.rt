// Standard input, handed over in pieces of whole lines, to the programs that answer line by line. Its end and a failure are
// different answers.
ghost use Rattle.std.specs.Prelude.{◌≡◌, ◌+◌, ◌≤◌, List, [], length, take};
ghost use Rattle.lines.specs.Squeeze.{Bytes};
ghost use Rattle.lines.specs.Reader.{Placed};
ghost use Rattle.program_io.specs.Handed.{Room, Going, Handed, Counted, is_end, is_failure, IsGot, GotWithin};

use crate::system;
use lines::Taken;
use std::io::Stdin;

// What reading once more gave: a block, the end of the input, or a failure.
#[derive(Clone, Copy, PartialEq, Eq)]
pub enum Last {
    Block,
    End,
    Failure,
}

// Where the lines of the piece end; how many bytes of the block were read last, and how many in all; what the last reading
// gave, and where it failed the system's number for why. Only `begin` and `next` make one, so a program that has one which
// ended has read to the end.
#[derive(Clone, Copy)]
pub struct Input {
    taken: Taken,
    got: usize,
    bytes: usize,
    last: Last,
    pub(crate) cause: i32,
}

// Room for a block of input.
pub fn block_buffer() -> [u8; 262144]
    ensures { 262144 ≡ length result }
{
    [0; 262144]
}

// Room for a block behind an unfinished line.
pub fn piece_buffer() -> [u8; 262404]
    ensures { 262404 ≡ length result }
{
    [0; 262404]
}

// Nothing was read yet, whatever stands in the piece.
pub fn begin() -> Input
    ensures { Placed result.taken 0 × ((piece : Bytes) → Going [] result piece) }
{
    Input {
        taken: Taken { whole: 0, end: 0 },
        got: 0,
        bytes: 0,
        last: Last::Block,
        cause: 0,
    }
}

// Where the whole lines at the front of the piece end.
pub fn whole(i: Input) -> usize
    ensures { result ≡ i.taken.whole }
{
    i.taken.whole
}

// Has the input ended?
pub fn is_ended(i: Input) -> bool
    ensures { result ≡ is_end i.last }
{
    i.last == Last::End
}

// Has reading failed?
pub fn has_failed(i: Input) -> bool
    ensures { result ≡ is_failure i.last }
{
    i.last == Last::Failure
}

// How many bytes of the block were read, what reading gave, and where it failed why.
#[derive(Clone, Copy)]
struct Got {
    len: usize,
    last: Last,
    cause: i32,
}

// The same, as a call said it: no bytes are the end.
fn got_of(read: Result<usize, i32>) -> Got
    ensures { IsGot read result }
{
    match read {
        Ok(0) => Got {
            len: 0,
            last: Last::End,
            cause: 0,
        },
        Ok(len) => Got {
            len,
            last: Last::Block,
            cause: 0,
        },
        Err(cause) => Got {
            len: 0,
            last: Last::Failure,
            cause,
        },
    }
}

// Reads a block. That it calls the operating system, no promise can say. A proved loop has to end: at 2^64 bytes, which no
// run reads, reading fails.
fn read_block(stdin: Stdin, bytes: usize, block: &mut [u8]) -> Got
    ensures { GotWithin result (length block.old) × (bytes + result.len ≤ 18446744073709551615) }
{
    if usize::MAX - bytes < block.len() {
        return got_of(Err(0));
    }
    let mut from = stdin;
    got_of(system::read(&mut from, block))
}

// Reads the next block: its whole lines stand at the front of the piece, and the unfinished one behind them; at the end of
// the input the unfinished line stands there. After a failure nothing is said of what stands there.
pub fn next(stdin: Stdin, i: Input, block: &mut [u8], piece: &mut [u8]) -> Input
    requires { Placed i.taken (length piece.old) × Room (length block.old) (length piece.old) }
    ensures { Placed result.taken (length piece.old) × Counted i result (length block.old)
        × ((bs : List Bytes) → Going bs i piece.old → Handed bs (take result.got block.new) result piece.new) }
{
    let read = read_block(stdin, i.bytes, block);
    let got = read.len;
    Input {
        taken: lines::next_piece(i.taken, &block[..got], piece),
        got,
        bytes: i.bytes + got,
        last: read.last,
        cause: read.cause,
    }
}
