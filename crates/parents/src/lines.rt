// The lines of a chain. The last call of the walk knows how long the listing is; it is written on the way back, and only
// where all of it fits.
ghost use Rattle.std.specs.Prelude.{◌≡◌, [], ◌∷◌, ◌++◌, ◌+◌, ◌*◌, ◌≤◌, ◌<◌, length};
ghost use Rattle.std.proofs.lemmas.List.Edits.{sets};
ghost use Rattle.standard.specs.Identifier.{und};
ghost use Rattle.table.specs.Search.{Sorted};
ghost use Rattle.parents.specs.Texts.{without_last, parent_text, chain_text};
ghost use Rattle.parents.specs.Listed.{Bounded, Lists, listed_of, one_more, out_after};

use byte_string::{put, same};
use table::lookup_sorted;

// Where a listing ends, and its steps: Ok where it fits, Err where it does not.
#[derive(Clone, Copy)]
pub struct Listed {
    pub end: usize,
    pub steps: usize,
}

// What stands before the last '-', or root where there is none.
fn without_last<'a>(id: &'a [u8], root: &'a [u8]) -> &'a [u8]
    requires { root.now ≡ und }
    ensures { result.now ≡ without_last id.entry.now }
{
    match id.iter().rev().position(|b| *b == b'-') {
        Some(back) => &id[..id.len() - 1 - back],
        None => root,
    }
}

// Writes the line and its 0A at the place at.
fn put_line(id: &[u8], out: &mut [u8], at: usize)
    requires { at + length id.now < length out.old }
    ensures { out.new ≡ sets out.old at (id.now ++ (10 ∷ [])) }
{
    let end = put(id, out, at);
    out[end] = b'\n';
}

// The last line.
fn last_line(id: &[u8], out: &mut [u8], at: usize) -> Result<Listed, Listed>
    requires { (length id.now ≤ 32768) × (at ≤ 4294967296) }
    ensures { (result ≡ listed_of at out.old (id.now ∷ [])) × (out.new ≡ out_after at out.old (id.now ∷ [])) }
{
    let end = at + id.len() + 1;
    let listed = Listed { end, steps: 0 };
    if out.len() < end {
        return Err(listed);
    }
    put_line(id, out, at);
    Ok(listed)
}

// A listing with one line more in front.
fn one_more(rest: Listed) -> Listed
    requires { rest.steps < 4294967296 }
    ensures { result ≡ one_more rest }
{
    Listed {
        end: rest.end,
        steps: rest.steps + 1,
    }
}

// The parent of a line with so many variants: the value of a row, whose key has no variants, or what stands before the
// last '-', or root.
fn parent_of<'a>(id: &'a [u8], variants: usize, parents: &'a [u8], root: &'a [u8]) -> &'a [u8]
    requires { (length id.now ≤ 32768) × (length parents.now ≤ 32768) × (root.now ≡ und) }
    ensures { let id = id.entry.now in let parents = parents.entry.now in
        (length result.now ≤ 32768) × (Sorted parents → result.now ≡ parent_text parents variants id) }
{
    if 0 < variants {
        return without_last(id, root);
    }
    match lookup_sorted(parents, id) {
        Some(value) => value,
        None => without_last(id, root),
    }
}

// Lists id, which has so many variants, and its parents, from the place at on, if that fits; where it would end, if not.
// It calls itself on the parent with one step fewer allowed. The identifier that ends the chain is lent as root.
pub fn list<'a>(
    id: &'a [u8],
    variants: usize,
    parents: &'a [u8],
    root: &'a [u8],
    allowed: usize,
    out: &mut [u8],
    at: usize,
) -> Result<Listed, Listed>
    requires { (length id.now ≤ 32768) × (length parents.now ≤ 32768) × (root.now ≡ und) × (at + allowed * 32769 ≤ 4294967296) × (allowed ≤ 1000) }
    ensures { let out' = out.exit.now in let id = id.entry.now in let out = out.entry.now in let parents = parents.entry.now in
        Bounded allowed at id out result out' × (Sorted parents → Lists at out (chain_text parents allowed variants id) result out') }
{
    if allowed == 0 || same(id, root) {
        return last_line(id, out, at);
    }
    let next = at + id.len() + 1;
    let parent = parent_of(id, variants, parents, root);
    let fewer = variants.saturating_sub(1);
    match list(parent, fewer, parents, root, allowed - 1, out, next) {
        Ok(rest) => {
            put_line(id, out, at);
            Ok(one_more(rest))
        }
        Err(rest) => Err(one_more(rest)),
    }
}
