// Public. The four functions for a host program in C, over lent bytes, which `c_api_c` exports. An answer is one number: bits
// 0 to 7 the number, 8 to 15 the table, 16 to 31 the place, 32 to 55 the length, 56 to 63 the steps.
#![tactic(auto)]

ghost use Rattle.std.specs.Prelude.{◌≡◌};
ghost use Rattle.standard.specs.Delivery.{given};
ghost use Rattle.standard.specs.Make.{canonicalise_made, maximise_made, minimise_made, list_made};
ghost use Rattle.operations.specs.Answer.{answer_by};
ghost use Rattle.c_api.specs.Packed.{packed, unpacked};

use operations::delivery::{Answer, Done, Refusal};

// Canonicalises an identifier over a table of aliases.
pub fn altazhbey_canonicalise(id: &[u8], aliases: &[u8], out: &mut [u8]) -> u64
    ensures { unpacked result out.new ≡ given (canonicalise_made aliases.now id.now) out.old }
{
    packed_answer(altazhbey::canonicalise(id, aliases, out))
}

// Maximises an identifier over tables of aliases and of likely rows.
pub fn altazhbey_maximise(id: &[u8], aliases: &[u8], likely: &[u8], out: &mut [u8]) -> u64
    ensures { unpacked result out.new ≡ given (maximise_made aliases.now likely.now id.now) out.old }
{
    packed_answer(altazhbey::maximise(id, aliases, likely, out))
}

// Minimises an identifier over tables of aliases and of likely rows.
pub fn altazhbey_minimise(id: &[u8], aliases: &[u8], likely: &[u8], out: &mut [u8]) -> u64
    ensures { unpacked result out.new ≡ given (minimise_made aliases.now likely.now id.now) out.old }
{
    packed_answer(altazhbey::minimise(id, aliases, likely, out))
}

// Lists the chain of an identifier over tables of aliases and of parents.
pub fn altazhbey_chain(id: &[u8], aliases: &[u8], parents: &[u8], out: &mut [u8]) -> u64
    ensures { unpacked result out.new ≡ given (list_made aliases.now parents.now id.now) out.old }
{
    packed_answer(altazhbey::chain(id, aliases, parents, out))
}

// What an operation gave back, as one number. Every answer of the four fits, so that nothing is cut off.
pub fn packed_answer(made: Result<Done, Refusal>) -> u64
    ensures { result ≡ packed (answer_by made) }
{
    pack(Answer::from(made))
}

// An answer as one number.
pub fn pack(a: Answer) -> u64
    ensures { result ≡ packed a }
{
    let number = u64::from(a.number);
    let table = u64::from(a.table);
    let place = (a.place % 65536) as u64;
    let len = (a.len % 16777216) as u64;
    let steps = (a.steps % 256) as u64;
    number + table * 256 + place * 65536 + len * 4294967296 + steps * 72057594037927936
}
