// For benchmarks: an exported operation once and then so many times more over the tables that it tested, on the same
// identifier and output. The answer is that of one call.
ghost use Rattle.std.specs.Prelude.{◌≡◌};
ghost use Rattle.std.proofs.Math.Option.{none};
ghost use Rattle.standard.specs.Delivery.{given};
ghost use Rattle.table.specs.Hints.{Hinted};
ghost use Rattle.table_check.specs.Verdicts.{verdict_is};
ghost use Rattle.c_api.specs.Packed.{unpacked};
ghost use Rattle.test_api.specs.Exported.{check_for, made_for};

use c_api::packed_answer;
use operations::canonicalise::canonicalise_tested;
use operations::chain::chain_tested;
use operations::complete::form_tested;
use operations::delivery::Refusal;
use operations::tables::tested;
use table::hints::{IndexedTable, fill_hints, indexed, many};
use table_check::{Fault, check_aliases, check_likely, check_parents};

// The check of the tables that the operation uses. The number of an operation is the harness's.
#[tactic(auto, unfolding(crate::specs::Exported::check_for))]
fn check_for(operation: u8, aliases: &[u8], other: &[u8]) -> Result<(), Fault>
    ensures { verdict_is result ≡ check_for operation aliases.now other.now }
{
    match operation {
        0 => check_aliases(aliases),
        1 | 2 => check_likely(aliases, other),
        _ => check_parents(aliases, other),
    }
}

// The operation over tables that passed, each with its hints. Canonicalising has not tested the other table, which is
// thus no IndexedTable.
fn once(
    operation: u8,
    id: &[u8],
    aliases: IndexedTable,
    other: &[u8],
    other_hints: &[u16],
    out: &mut [u8],
) -> u64
    requires { (check_for operation aliases.rows.now other.now ≡ none) × Hinted other.now other_hints.now }
    ensures { let out' = out.exit.now in let aliases = aliases.entry.rows.now in let other = other.entry.now in let id = id.entry.now in
        let out = out.entry.now in
        unpacked result out' ≡ given (made_for operation aliases other id) out }
{
    match operation {
        0 => packed_answer(canonicalise_tested(id, aliases, out)),
        1 => {
            let tables = tested(aliases, indexed(other, other_hints));
            packed_answer(form_tested(false, id, tables, out))
        }
        2 => {
            let tables = tested(aliases, indexed(other, other_hints));
            packed_answer(form_tested(true, id, tables, out))
        }
        _ => packed_answer(chain_tested(id, aliases, other, out)),
    }
}

// The operation once and so many times more.
fn repeated(
    operation: u8,
    id: &[u8],
    aliases: IndexedTable,
    other: &[u8],
    other_hints: &[u16],
    out: &mut [u8],
    times: u32,
) -> u64
    requires { (check_for operation aliases.rows.now other.now ≡ none) × Hinted other.now other_hints.now }
    ensures { let out' = out.exit.now in let aliases = aliases.entry.rows.now in let other = other.entry.now in let id = id.entry.now in
        let out = out.entry.now in
        unpacked result out' ≡ given (made_for operation aliases other id) out }
{
    let mut r = once(operation, id, aliases, other, other_hints, out);
    for _ in 0..times {
        r = once(operation, id, aliases, other, other_hints, out);
    }
    r
}

// Tests the tables, then does the operation once and so many times more.
#[unsafe(no_mangle)]
pub extern "C" fn probe_repeat(
    operation: u8,
    id: &[u8],
    aliases: &[u8],
    other: &[u8],
    out: &mut [u8],
    times: u32,
) -> u64
    ensures { let out' = out.exit.now in let aliases = aliases.entry.now in let other = other.entry.now in let id = id.entry.now in
        let out = out.entry.now in
        unpacked result out' ≡ given (made_for operation aliases other id) out }
{
    if let Err(fault) = check_for(operation, aliases, other) {
        return packed_answer(Err(Refusal::Table(fault)));
    }
    repeated(operation, id, indexed(aliases, &[]), other, &[], out, times)
}

// The same with hints, made once.
#[unsafe(no_mangle)]
pub extern "C" fn probe_repeat_hinted(
    operation: u8,
    id: &[u8],
    aliases: &[u8],
    other: &[u8],
    out: &mut [u8],
    times: u32,
) -> u64
    ensures { let out' = out.exit.now in let aliases = aliases.entry.now in let other = other.entry.now in let id = id.entry.now in
        let out = out.entry.now in
        unpacked result out' ≡ given (made_for operation aliases other id) out }
{
    if let Err(fault) = check_for(operation, aliases, other) {
        return packed_answer(Err(Refusal::Table(fault)));
    }
    let mut alias_hints = many();
    fill_hints(aliases, &mut alias_hints);
    let mut other_hints = many();
    fill_hints(other, &mut other_hints);
    repeated(
        operation,
        id,
        indexed(aliases, &alias_hints),
        other,
        &other_hints,
        out,
        times,
    )
}
