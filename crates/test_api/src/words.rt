// The words of a number.
ghost use Rattle.std.specs.Prelude.{◌≡◌, length};
ghost use Rattle.std.proofs.lemmas.List.Edits.{sets};
ghost use Rattle.test_api.specs.Told.{words_for, told};

// Writes the words of a number and 0A at the front of out, and gives the length of the words; 0 and nothing written where
// out has fewer than 80 bytes.
#[unsafe(no_mangle)]
pub extern "C" fn probe_meaning(number: u8, out: &mut [u8]) -> u64
    ensures { let out' = out.exit.now in let out = out.entry.now in
        (result ≡ length (words_for number out)) × (out' ≡ sets out 0 (told number out)) }
{
    if out.len() < 80 {
        return 0;
    }
    let end = meaning::put_meaning(number, b'\n', out, 0);
    (end - 1) as u64
}
