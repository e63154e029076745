// The lines of a piece of input, taken into a bill.
ghost use Rattle.std.specs.Prelude.{List, ◌++◌, ◌≤◌, length};
ghost use Rattle.standard.specs.Delivery.{Bytes};
ghost use Rattle.table.specs.Lines.{lines};
ghost use Rattle.bill_ledger.specs.Up.{Sized};
ghost use Rattle.bill_lines.specs.State.{Bounded, Going, Good};
ghost use Rattle.bill_lines.specs.Over.{tables_in};

use crate::Counts;
use crate::line::take_line;
use byte_string::end_of;
use lines::next_line;
use operations::tables::TestedTables;

// Takes all lines of a piece into a bill that is not refused. The key of each is written into out.
pub(crate) fn take_lines(
    from: Counts,
    piece: &[u8],
    tables: TestedTables,
    keys: &mut [u8],
    counts: &mut [u64],
    out: &mut [u8],
) -> Counts
    requires { (255 ≤ length out.old) × Bounded from × Sized keys.old counts.old }
    ensures { let T = tables_in tables.entry in
        Bounded result × Sized keys.new counts.new
        × ((ls : List Bytes) → Going T ls from keys.old counts.old → Good T (ls ++ lines piece.now) result keys.new counts.new) }
{
    let mut c = from;
    let mut at = 0;
    // a step is as long as its line
    while at < piece.len() {
        if c.number != 0 {
            return c;
        }
        let e = end_of(piece, b'\n', at);
        c = take_line(c, &piece[at..e], tables, keys, counts, out);
        at = next_line(piece.len(), e);
    }
    c
}
