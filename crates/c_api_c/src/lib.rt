// Public. The static library that a host program in C links: it exports the four functions of `c_api` under their names, each
// with its promise. A crate is either a library or a static library, so these are two.
#![tactic(auto)]

ghost use Rattle.std.specs.Prelude.{◌≡◌};
ghost use Rattle.standard.specs.Delivery.{given};
ghost use Rattle.standard.specs.Make.{canonicalise_made, maximise_made, minimise_made, list_made};
ghost use Rattle.c_api.specs.Packed.{unpacked};

// Canonicalises an identifier over a table of aliases.
#[unsafe(no_mangle)]
pub extern "C" fn altazhbey_canonicalise(id: &[u8], aliases: &[u8], out: &mut [u8]) -> u64
    ensures { unpacked result out.new ≡ given (canonicalise_made aliases.now id.now) out.old }
{
    c_api::altazhbey_canonicalise(id, aliases, out)
}

// Maximises an identifier over tables of aliases and of likely rows.
#[unsafe(no_mangle)]
pub extern "C" fn altazhbey_maximise(
    id: &[u8],
    aliases: &[u8],
    likely: &[u8],
    out: &mut [u8],
) -> u64
    ensures { unpacked result out.new ≡ given (maximise_made aliases.now likely.now id.now) out.old }
{
    c_api::altazhbey_maximise(id, aliases, likely, out)
}

// Minimises an identifier over tables of aliases and of likely rows.
#[unsafe(no_mangle)]
pub extern "C" fn altazhbey_minimise(
    id: &[u8],
    aliases: &[u8],
    likely: &[u8],
    out: &mut [u8],
) -> u64
    ensures { unpacked result out.new ≡ given (minimise_made aliases.now likely.now id.now) out.old }
{
    c_api::altazhbey_minimise(id, aliases, likely, out)
}

// Lists the chain of an identifier over tables of aliases and of parents.
#[unsafe(no_mangle)]
pub extern "C" fn altazhbey_chain(id: &[u8], aliases: &[u8], parents: &[u8], out: &mut [u8]) -> u64
    ensures { unpacked result out.new ≡ given (list_made aliases.now parents.now id.now) out.old }
{
    c_api::altazhbey_chain(id, aliases, parents, out)
}
