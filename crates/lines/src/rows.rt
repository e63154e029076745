// Rows made of lines, one of each.
ghost use Rattle.std.specs.Prelude.{◌≡◌, List, ℕ, ◌+◌, ◌≤◌, length, take};
ghost use Rattle.std.proofs.lemmas.List.Edits.{sets};
ghost use Rattle.byte_string.specs.Strings.{WritesWithin};
ghost use Rattle.lines.specs.Pieces.{piece_text, piece_used};

use crate::next_line;
use byte_string::end_of;

// What makes the row of a line. A row needs no more than so many bytes, and no more of its line than the 260 that are kept.
pub trait LineRows {
    ghost most: { ℕ };

    ghost row_of: { Self → List ℕ → List ℕ };

    // How many bytes a row needs at most.
    fn room(&self) -> usize
        ensures { result ≡ most };

    // Writes the row of a line at the place at, and gives the next place.
    fn put(&self, line: &[u8], out: &mut [u8], at: usize) -> usize
        requires { at + most ≤ length out.old }
        ensures { WritesWithin (at + most) out.old at (row_of self.now line.now) result out.new };

    ghost first: { (s : Self) → (line : List ℕ) → row_of s (take 260 line) ≡ row_of s line };
}

// How many bytes of a piece were answered, and the length of their rows.
#[derive(Clone, Copy)]
pub struct Written {
    pub used: usize,
    pub len: usize,
}

// Writes the rows of the lines of a piece at the front of out, as long as the next has room.
pub fn write_rows<R: LineRows>(rows: &R, piece: &[u8], out: &mut [u8]) -> Written
    ensures used { result.used ≡ piece_used (R.row_of rows.now) R.most (length out.old) piece.now }
    ensures len { result.len ≡ length (piece_text (R.row_of rows.now) R.most (length out.old) piece.now) }
    ensures text { out.new ≡ sets out.old 0 (piece_text (R.row_of rows.now) R.most (length out.old) piece.now) }
    ensures in_piece { result.used ≤ length piece.now }
    ensures in_out { result.len ≤ length out.old }
{
    let mut at = 0;
    let mut len = 0;
    // a step is as long as its line
    while at < piece.len() {
        if out.len() - len < rows.room() {
            return Written { used: at, len };
        }
        let e = end_of(piece, b'\n', at);
        len = rows.put(&piece[at..e], out, len);
        at = next_line(piece.len(), e);
    }
    Written { used: at, len }
}
