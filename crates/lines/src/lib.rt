// Inner. The line reader of the programs: blocks of input come in, whole lines go out, and of a line only the first
// 260 bytes are kept: an identifier of more than 255 is refused, and a few bytes may stand before one. So an
// unfinished line never takes more than 260 bytes.
#![tactic(auto)]

pub mod rows;

ghost use Rattle.std.specs.Prelude.{◌≡◌, List, ◌+◌, ◌-◌, ◌≤◌, length, take, drop};
ghost use Rattle.std.proofs.lemmas.List.Edits.{sets};
ghost use Rattle.byte_string.specs.Strings.{WritesWithin};
ghost use Rattle.lines.specs.Squeeze.{Bytes, next_run, kept, squeezed, run_after};
ghost use Rattle.lines.specs.Reader.{Placed, Carries, HandsOver};
ghost use Rattle.lines.specs.Pieces.{Next};

// Where the whole lines of a piece end, and where the unfinished one behind them does.
#[derive(Clone, Copy)]
pub struct Taken {
    pub whole: usize,
    pub end: usize,
}

// How many bytes of the line are kept after one more byte.
#[tactic(auto, unfolding(crate::specs::Squeeze::next_run))]
fn next_run(run: usize, b: u8) -> usize
    requires { run ≤ 260 }
    ensures { (result ≡ next_run run b) × (result ≤ 260) }
{
    if b == b'\n' { 0 } else { 260.min(run + 1) }
}

// Writes the byte at the place at, if it is kept, and gives the next place.
#[tactic(auto, unfolding(crate::specs::Squeeze::kept))]
fn put_kept(run: usize, b: u8, out: &mut [u8], at: usize) -> usize
    requires { at + 1 ≤ length out.old }
    ensures { WritesWithin (at + 1) out.old at (kept run b) result out.new }
{
    if b != b'\n' && run >= 260 {
        return at;
    }
    out[at] = b;
    at + 1
}

// Takes a block of input in behind the first `run` bytes of the piece, which are the unfinished line so far.
fn take_in(block: &[u8], piece: &mut [u8], run: usize) -> Taken
    requires { (run ≤ 260) × (run + length block.now ≤ length piece.old) }
    ensures { let piece' = piece.exit.now in let block = block.entry.now in let piece = piece.entry.now in
        (result.end ≡ run + length (squeezed run block)) × (result.whole + run_after run block ≡ result.end) × (piece' ≡ sets piece run (squeezed run block))
        × (result.end ≤ run + length block) × (result.end ≤ result.whole + 260) }
{
    let mut end = run;
    let mut n = run;
    for b in block {
        end = put_kept(n, *b, piece, end);
        n = next_run(n, *b);
    }
    Taken {
        whole: end - n,
        end,
    }
}

// Moves the unfinished line, from `whole` to `end`, to the front of the piece, and gives its length.
fn keep_rest(piece: &mut [u8], whole: usize, end: usize) -> usize
    requires { (whole ≤ end) × (end ≤ length piece.old) }
    ensures { (result ≡ end - whole) × (piece.new ≡ sets piece.old 0 (take (end - whole) (drop whole piece.old))) }
{
    piece.copy_within(whole..end, 0);
    end - whole
}

// Takes the next block of the input in: the unfinished line moves to the front of the piece, and the block comes behind it.
// A block of no bytes says that the input has ended: then the unfinished line is handed over.
pub fn next_piece(t: Taken, block: &[u8], piece: &mut [u8]) -> Taken
    requires { Placed t (length piece.old) × (260 + length block.now ≤ length piece.old) }
    ensures { Placed result (length piece.old)
        × ((bs : List Bytes) → Carries bs t piece.old → HandsOver bs block.now result piece.new) }
{
    let kept = keep_rest(piece, t.whole, t.end);
    if block.len() == 0 {
        return Taken {
            whole: kept,
            end: kept,
        };
    }
    take_in(block, piece, kept)
}

// Where the next line starts, in a piece of n bytes, after a line that ends at e.
pub fn next_line(n: usize, e: usize) -> usize
    ensures { Next n e result }
{
    if e < n { e + 1 } else { e }
}
