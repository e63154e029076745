// The tables of maximising and minimising, tested.
ghost use Rattle.std.specs.Prelude.{◌≡◌};
ghost use Rattle.table.specs.Search.{Sorted};
ghost use Rattle.operations.specs.Both.{TestedBoth};

use table::hints::{IndexedTable, indexed};

// Aliases and likely rows that passed the check, each with its hints.
#[derive(Clone, Copy)]
pub struct TestedTables<'a> {
    pub aliases: IndexedTable<'a>,
    pub likely: IndexedTable<'a>,
    ghost tested: { TestedBoth aliases.rows.now likely.rows.now },
}

// The two tables together.
pub fn tested<'a>(aliases: IndexedTable<'a>, likely: IndexedTable<'a>) -> TestedTables<'a>
    requires { TestedBoth aliases.rows.now likely.rows.now }
    ensures { (result.aliases.rows.now ≡ aliases.entry.rows.now) × (result.likely.rows.now ≡ likely.entry.rows.now) }
{
    TestedTables { aliases, likely }
}

// A sorted table with no hints.
pub fn unhinted<'a>(rows: &'a [u8]) -> IndexedTable<'a>
    requires { Sorted rows.now }
    ensures { result.rows.now ≡ rows.entry.now }
{
    indexed(rows, &[])
}
