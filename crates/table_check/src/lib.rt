// Inner. The check of the three tables: 11, 12 and 13, and rows that clash (14).
#![tactic(auto)]

mod replaced;

ghost use Rattle.std.specs.Prelude.{◌≡◌, true, [], ◌≤◌, length};
ghost use Rattle.std.proofs.Math.Option.{none};
ghost use Rattle.standard.specs.Table.{pieces, rows, parent_shape, shape_of, clash_fault, parents as parents_kind, used, in_use, to_canonicalise, to_maximise, to_chain, to_check, each, size_fault, shape_fault, check as checkOf, Pass};
ghost use Rattle.byte_string.specs.Strings.{end_of};
ghost use Rattle.table.specs.Hints.{Hinted, Blank};
ghost use Rattle.row_shapes.specs.Rows.{kind_is};
ghost use Rattle.parents.specs.Walk.{cut};
ghost use Rattle.table_check.specs.Verdicts.{number_of, table_of, verdict_is, use_is, as_used, is_used, fault_by, clash_by, clashes_of};
ghost use Rattle.table_check.specs.Free.{is_threes, free_parent, free_row, clash_is};

use crate::replaced::{alias_free, two_free};
use parents::walk::key_reaches_root;
use row_shapes::{RowFault, Table, check_rows};
use table::hints::{IndexedTable, few, fill_hints, indexed, many};

// What can be wrong with a table: its size (11), the shape of a row (12), the order of rows (13), a row that clashes (14).
#[derive(Clone, Copy, PartialEq, Eq)]
pub enum Kind {
    Size,
    Shape,
    Order,
    Clash,
}

// What is wrong, where, and with which table.
#[derive(Clone, Copy, PartialEq, Eq)]
pub struct Fault {
    pub kind: Kind,
    pub place: usize,
    pub table: Table,
}

impl Fault {
    // The number of what is wrong.
    pub fn number(self) -> u8
        ensures { result ≡ number_of self }
    {
        match self.kind {
            Kind::Size => 11,
            Kind::Shape => 12,
            Kind::Order => 13,
            Kind::Clash => 14,
        }
    }

    // Where it is wrong.
    pub fn place(self) -> usize
        ensures { result ≡ self.place }
    {
        self.place
    }

    // The table, by its number.
    pub fn table(self) -> u8
        ensures { result ≡ table_of self }
    {
        self.table_number()
    }

    // The table's number.
    #[tactic(auto, unfolding(standard::specs::Table::table_number, row_shapes::specs::Rows::kind_is))]
    pub fn table_number(self) -> u8
        ensures { result ≡ table_of self }
    {
        match self.table {
            Table::Aliases => 1,
            Table::Likely => 2,
            Table::Parents => 3,
        }
    }
}

// Has the value of the parent row from i to e nothing that aliases replace, and does the walk from its key end?
fn parent_free(aliases: IndexedTable, own: IndexedTable, i: usize, e: usize) -> bool
    requires { let p = own.rows.now in
        Pass parent_shape (rows p) × (i ≤ e) × (e ≤ length p) × (is_threes (pieces 9 (cut p i e)) ≡ true) × (e ≡ end_of 10 p i) }
    ensures { let p = own.entry.rows.now in result ≡ free_parent aliases.entry.rows.now p (pieces 9 (cut p i e)) }
{
    if !two_free(aliases, &own.rows[i..e]) {
        return false;
    }
    let key = byte_string::end_of(&own.rows[i..e], b'\t', 0);
    key_reaches_root(own, i, i + key, e)
}

// Does the row from i to e of the table clash with none?
fn free(aliases: IndexedTable, own: IndexedTable, i: usize, e: usize, table: Table) -> bool
    requires { let t = own.rows.now in
        Pass (shape_of (kind_is table)) (rows t) × (i ≤ e) × (e ≤ length t)
        × (shape_of (kind_is table) (pieces 9 (cut t i e)) ≡ true) × (e ≡ end_of 10 t i) }
    ensures { let t = own.entry.rows.now in result ≡ free_row (kind_is table) aliases.entry.rows.now t (pieces 9 (cut t i e)) }
{
    match table {
        Table::Aliases => alias_free(aliases, &own.rows[i..e]),
        Table::Likely => two_free(aliases, &own.rows[i..e]),
        Table::Parents => parent_free(aliases, own, i, e),
    }
}

// Where the first row that clashes starts, if there is one.
fn first_clash(aliases: IndexedTable, own: IndexedTable, table: Table) -> Option<usize>
    requires { Pass (shape_of (kind_is table)) (rows own.rows.now) }
    ensures { let t = own.entry.rows.now in clash_is result ≡ clash_fault (free_row (kind_is table) aliases.entry.rows.now t) 0 (rows t) }
{
    let mut i = 0;
    // a step is as long as its row
    while i < own.rows.len() {
        let e = byte_string::end_of(own.rows, b'\n', i);
        if !free(aliases, own, i, e, table) {
            return Some(i);
        }
        i = e + 1;
    }
    None
}

// The three tables.
#[derive(Clone, Copy)]
struct Tables<'a> {
    aliases: &'a [u8],
    likely: &'a [u8],
    parents: &'a [u8],
}

// What the tables are used for; minimising uses those of maximising.
#[derive(Clone, Copy, PartialEq, Eq)]
pub enum Use {
    Canonicalise,
    Maximise,
    Chain,
    Check,
}

// Is the table in use? The aliases always are.
fn uses(purpose: Use, table: Table) -> bool
    ensures { result ≡ is_used (use_is purpose) (kind_is table) }
{
    match table {
        Table::Aliases => true,
        Table::Likely => matches!(purpose, Use::Maximise | Use::Check),
        Table::Parents => matches!(purpose, Use::Chain | Use::Check),
    }
}

// 11, of one table.
fn check_size(t: &[u8], table: Table) -> Result<(), Fault>
    ensures { verdict_is result ≡ size_fault (used (kind_is table) t.now) }
{
    if t.len() <= 32768 {
        return Ok(());
    }
    Err(Fault {
        kind: Kind::Size,
        place: 0,
        table,
    })
}

// 12 and 13, of one table.
fn check_shape(t: &[u8], table: Table) -> Result<(), Fault>
    ensures { verdict_is result ≡ shape_fault (used (kind_is table) t.now) }
{
    let (kind, place) = match check_rows(t, table) {
        Ok(()) => return Ok(()),
        Err(RowFault::Shape(place)) => (Kind::Shape, place),
        Err(RowFault::Order(place)) => (Kind::Order, place),
    };
    Err(Fault { kind, place, table })
}

// What a table that is used is tested for by itself: its size (11), then its rows (12 and 13).
#[derive(Clone, Copy, PartialEq, Eq)]
pub enum Test {
    Size,
    Shape,
}

// One test, of a table if it is used.
fn check_one(t: &[u8], table: Table, purpose: Use, test: Test) -> Result<(), Fault>
    ensures { verdict_is result ≡ each (fault_by test) (as_used (use_is purpose) (kind_is table) t.now) }
{
    if !uses(purpose, table) {
        return Ok(());
    }
    match test {
        Test::Size => check_size(t, table),
        Test::Shape => check_shape(t, table),
    }
}

// One test, table by table.
fn check_each(tables: Tables, purpose: Use, test: Test) -> Result<(), Fault>
    ensures { let t = tables.entry in verdict_is result ≡ each (fault_by test) (in_use (use_is purpose) t.aliases.now t.likely.now t.parents.now) }
{
    check_one(tables.aliases, Table::Aliases, purpose, test)?;
    check_one(tables.likely, Table::Likely, purpose, test)?;
    check_one(tables.parents, Table::Parents, purpose, test)
}

// 14, of a table if it is used, over rows that have their shape.
fn check_free(
    aliases: IndexedTable,
    t: &[u8],
    own: &[u16],
    table: Table,
    purpose: Use,
) -> Result<(), Fault>
    requires { (each shape_fault (as_used (use_is purpose) (kind_is table) t.now) ≡ none) × Hinted t.now own.now }
    ensures { verdict_is result ≡ each (clash_by aliases.entry.rows.now) (as_used (use_is purpose) (kind_is table) t.now) }
{
    if !uses(purpose, table) {
        return Ok(());
    }
    match first_clash(aliases, indexed(t, own), table) {
        None => Ok(()),
        Some(place) => Err(Fault {
            kind: Kind::Clash,
            place,
            table,
        }),
    }
}

// 14, of the parents if they are used. Their walks look rows up in the table itself, by hints of its own.
fn check_walks(aliases: IndexedTable, parents: &[u8], purpose: Use) -> Result<(), Fault>
    requires { each shape_fault (as_used (use_is purpose) parents_kind parents.now) ≡ none }
    ensures { verdict_is result ≡ each (clash_by aliases.entry.rows.now) (as_used (use_is purpose) parents_kind parents.now) }
{
    if !uses(purpose, Table::Parents) {
        return Ok(());
    }
    if parents.len() <= 2048 {
        check_filled(aliases, parents, &mut few(), purpose)
    } else {
        check_filled(aliases, parents, &mut many(), purpose)
    }
}

// The same with room for the hints.
fn check_filled(
    aliases: IndexedTable,
    parents: &[u8],
    own: &mut [u16],
    purpose: Use,
) -> Result<(), Fault>
    requires { (each shape_fault (as_used (use_is purpose) parents_kind parents.now) ≡ none) × Blank own.old }
    ensures { verdict_is result ≡ each (clash_by aliases.entry.rows.now) (as_used (use_is purpose) parents_kind parents.now) }
{
    fill_hints(parents, own);
    check_free(aliases, parents, own, Table::Parents, purpose)
}

// 14 of the tables that are used, over rows that have their shape, with room for the hints of the aliases.
fn check_hinted(tables: Tables, hints: &mut [u16], purpose: Use) -> Result<(), Fault>
    requires { (each shape_fault (in_use (use_is purpose) tables.aliases.now tables.likely.now tables.parents.now) ≡ none) × Blank hints.old }
    ensures { let t = tables.entry in verdict_is result ≡ clashes_of (use_is purpose) t.aliases.now t.likely.now t.parents.now }
{
    let rows = tables.aliases;
    fill_hints(rows, hints);
    let aliases = indexed(rows, hints);
    check_free(aliases, rows, hints, Table::Aliases, purpose)?;
    check_free(aliases, tables.likely, &[], Table::Likely, purpose)?;
    check_walks(aliases, tables.parents, purpose)
}

// 14 of the tables that are used, over rows that have their shape.
fn check_clashes(tables: Tables, purpose: Use) -> Result<(), Fault>
    requires { each shape_fault (in_use (use_is purpose) tables.aliases.now tables.likely.now tables.parents.now) ≡ none }
    ensures { let t = tables.entry in verdict_is result ≡ clashes_of (use_is purpose) t.aliases.now t.likely.now t.parents.now }
{
    if tables.aliases.len() <= 2048 {
        check_hinted(tables, &mut few(), purpose)
    } else {
        check_hinted(tables, &mut many(), purpose)
    }
}

// The tables that are used: sizes, then rows, then clashes.
fn check_used(tables: Tables, purpose: Use) -> Result<(), Fault>
    ensures { let t = tables.entry in verdict_is result ≡ checkOf (use_is purpose) t.aliases.now t.likely.now t.parents.now }
{
    check_each(tables, purpose, Test::Size)?;
    check_each(tables, purpose, Test::Shape)?;
    check_clashes(tables, purpose)
}

// The check for canonicalising, which uses the aliases.
pub fn check_aliases(aliases: &[u8]) -> Result<(), Fault>
    ensures { verdict_is result ≡ checkOf to_canonicalise aliases.now [] [] }
{
    check_used(
        Tables {
            aliases,
            likely: &[],
            parents: &[],
        },
        Use::Canonicalise,
    )
}

// The check for maximising and minimising, which use aliases and likely.
pub fn check_likely(aliases: &[u8], likely: &[u8]) -> Result<(), Fault>
    ensures { verdict_is result ≡ checkOf to_maximise aliases.now likely.now [] }
{
    check_used(
        Tables {
            aliases,
            likely,
            parents: &[],
        },
        Use::Maximise,
    )
}

// The check for the chain, which uses aliases and parents.
pub fn check_parents(aliases: &[u8], parents: &[u8]) -> Result<(), Fault>
    ensures { verdict_is result ≡ checkOf to_chain aliases.now [] parents.now }
{
    check_used(
        Tables {
            aliases,
            likely: &[],
            parents,
        },
        Use::Chain,
    )
}

// The check of all three.
pub fn check(aliases: &[u8], likely: &[u8], parents: &[u8]) -> Result<(), Fault>
    ensures { verdict_is result ≡ checkOf to_check aliases.now likely.now parents.now }
{
    check_used(
        Tables {
            aliases,
            likely,
            parents,
        },
        Use::Check,
    )
}
