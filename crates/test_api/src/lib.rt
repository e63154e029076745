// For tests and benchmarks only, not shipped: the lookup of one row, the check of the tables, reading and the operations
// over tested tables, as numbers that a harness can call; the class of a byte; and the words of a number.
#![tactic(auto)]

pub mod bytes;
pub mod reads;
pub mod repeats;
pub mod words;

ghost use Rattle.std.specs.Prelude.{◌≡◌};
ghost use Rattle.standard.specs.Table.{located, check as checkOf, to_check};
ghost use Rattle.table.specs.Lines.{found_is};
ghost use Rattle.table.specs.Search.{Sorted};
ghost use Rattle.table_check.specs.Verdicts.{verdict_is};
ghost use Rattle.test_api.specs.Codes.{found_code, fault_code};

use std::ops::Range;
use table::hints::{HintedTable, few, fill_hints, many};
use table_check::Fault;

// Bit 0: found; 1 to 31: where the value starts; 32 to 62: its length. All ones where these do not fit.
#[unsafe(no_mangle)]
pub extern "C" fn probe_lookup(t: &[u8], key: &[u8]) -> u64
    ensures { result ≡ found_code (located t.now key.now) }
{
    code_found(table::find(t, key))
}

// The same by halves, of a sorted table.
#[unsafe(no_mangle)]
pub extern "C" fn probe_sorted(t: &[u8], key: &[u8]) -> u64
    ensures { Sorted t.now → result ≡ found_code (located t.now key.now) }
{
    code_found(table::find_sorted(t, key))
}

// The same by hints, which are made for this one key: few of a small table, as the check has them. The search is the one
// that an IndexedTable's find and lookup go through; the table is any.
#[unsafe(no_mangle)]
pub extern "C" fn probe_hinted(t: &[u8], key: &[u8]) -> u64
    ensures { Sorted t.now → result ≡ found_code (located t.now key.now) }
{
    if t.len() <= 2048 {
        let mut hints = few();
        fill_hints(t, &mut hints);
        let table = HintedTable {
            rows: t,
            hints: &hints,
        };
        code_found(table.find(key))
    } else {
        let mut hints = many();
        fill_hints(t, &mut hints);
        let table = HintedTable {
            rows: t,
            hints: &hints,
        };
        code_found(table.find(key))
    }
}

#[tactic(auto, unfolding(crate::specs::Codes::found_code))]
fn code_found(found: Option<Range<usize>>) -> u64
    ensures { result ≡ found_code (found_is found) }
{
    let Some(value) = found else {
        return 0;
    };
    let start = value.start;
    let len = value.end.saturating_sub(start);
    if 2147483648 <= start || 2147483648 <= len {
        return u64::MAX;
    }
    1 + start as u64 * 2 + len as u64 * 4294967296
}

// Bits 0 to 7: the number; 8 to 15: the table; 16 to 31: the place.
#[unsafe(no_mangle)]
pub extern "C" fn probe_check(a: &[u8], l: &[u8], p: &[u8]) -> u64
    ensures { result ≡ fault_code (checkOf to_check a.now l.now p.now) }
{
    code_verdict(table_check::check(a, l, p))
}

#[tactic(auto, unfolding(crate::specs::Codes::fault_code))]
fn code_verdict(checked: Result<(), Fault>) -> u64
    ensures { result ≡ fault_code (verdict_is checked) }
{
    match checked {
        Ok(()) => 0,
        Err(fault) => {
            let number = u64::from(fault.number());
            let table = u64::from(fault.table_number());
            number + table * 256 + (fault.place % 65536) as u64 * 65536
        }
    }
}
