// A subtag of at most eight bytes, as a report holds it.
ghost use Rattle.std.specs.Prelude.{◌≤◌};

// A subtag: its first `len` bytes, as there is no heap for a String.
#[derive(Clone, Copy)]
pub struct Word {
    pub bytes: [u8; 8],
    pub len: usize,
    ghost within: { len ≤ 8 },
}
