// What makes the rows of `inspect`: of lines alone, or over tables that passed the check, each with its hints.
ghost use Rattle.std.specs.Prelude.{◌≡◌, true, ◌+◌, ◌≤◌, length};
ghost use Rattle.byte_string.specs.Strings.{WritesWithin};
ghost use Rattle.inspect_rows.specs.Rows.{row_of, key_number, line_row};
ghost use Rattle.inspect_rows.specs.First.{row_first, line_first};

use crate::put_row;
use lines::rows::LineRows;
use operations::complete::{form_buffer, form_tested};
use operations::delivery::Answer;
use operations::tables::TestedTables;

// Of lines alone.
#[derive(Clone, Copy)]
pub struct ReadRows {}

impl LineRows for ReadRows {
    ghost most = { 512 };

    ghost row_of = { λ s. row_of 0 };

    fn room(&self) -> usize {
        512
    }

    fn put(&self, line: &[u8], out: &mut [u8], at: usize) -> usize {
        put_row(line, 0, out, at)
    }

    ghost first = { λ s line. row_first 0 line };
}

// Over tables: why an identifier that is read is no key.
#[derive(Clone, Copy)]
pub struct KeyedRows<'a> {
    pub tables: TestedTables<'a>,
}

impl<'a> KeyedRows<'a> {
    // The number of minimising a line.
    fn key_number(&self, line: &[u8]) -> u8
        ensures { let t = self.entry.now.tables in result ≡ key_number true t.aliases.rows.now t.likely.rows.now line.now }
    {
        let mut form = form_buffer();
        Answer::from(form_tested(true, line, self.tables, &mut form)).number
    }
}

impl<'a> LineRows for KeyedRows<'a> {
    ghost most = { 512 };

    ghost row_of = { λ s. line_row true s.tables.aliases.rows.now s.tables.likely.rows.now };

    fn room(&self) -> usize {
        512
    }

    fn put(&self, line: &[u8], out: &mut [u8], at: usize) -> usize {
        let key = self.key_number(line);
        put_row(line, key, out, at)
    }

    ghost first = { λ s line. line_first true s.tables.aliases.rows.now s.tables.likely.rows.now line };
}
