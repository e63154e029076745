// Tables that passed the check, each with its hints, and the rows that they make of lines.
ghost use Rattle.std.specs.Prelude.{◌≡◌, ◌+◌, ◌≤◌, length};
ghost use Rattle.byte_string.specs.Strings.{WritesWithin};
ghost use Rattle.key_rows.specs.Keys.{key_row};
ghost use Rattle.key_rows.specs.First.{row_first};

use crate::put_answer;
use lines::rows::LineRows;
use operations::complete::{form_buffer, form_tested};
use operations::delivery::Answer;
use operations::tables::TestedTables;

#[derive(Clone, Copy)]
pub struct KeyRows<'a> {
    pub tables: TestedTables<'a>,
}

impl<'a> LineRows for KeyRows<'a> {
    ghost most = { 540 };

    ghost row_of = { λ s. key_row s.tables.aliases.rows.now s.tables.likely.rows.now };

    fn room(&self) -> usize {
        540
    }

    fn put(&self, line: &[u8], out: &mut [u8], at: usize) -> usize {
        let mut form = form_buffer();
        let a = Answer::from(form_tested(true, line, self.tables, &mut form));
        put_answer(line, a.number, &form, a.len, out, at)
    }

    ghost first = { λ s line. row_first s.tables.aliases.rows.now s.tables.likely.rows.now line };
}
