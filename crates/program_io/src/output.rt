// Standard output: how many bytes were printed, and whether a write failed. After a write that failed nothing is printed.
ghost use Rattle.std.specs.Prelude.{◌≡◌, true, false, length};
ghost use Rattle.program_io.specs.Printed.{Prints};

use crate::system::write_all;
use std::io::{Error, ErrorKind, Stdout};

// How many bytes were printed, modulo 2^64, whether a write failed, and the system's number for why. Only `begin` and
// `print` make one, so a program that has one which did not fail has printed them all.
#[derive(Clone, Copy)]
pub struct Output {
    bytes: usize,
    failed: bool,
    pub(crate) cause: i32,
}

// Nothing was printed yet.
pub fn begin() -> Output
    ensures { (result.bytes ≡ 0) × (result.failed ≡ false) }
{
    Output {
        bytes: 0,
        failed: false,
        cause: 0,
    }
}

// Did a write fail?
pub fn has_failed(o: Output) -> bool
    ensures { result ≡ o.failed }
{
    o.failed
}

// Did a write fail because nobody reads the pipe any more?
pub fn is_unread(o: Output) -> bool
    ensures { result ≡ true → o.failed ≡ true }
{
    o.failed && Error::from_raw_os_error(o.cause).kind() == ErrorKind::BrokenPipe
}

// Prints a text, unless a write failed before.
pub fn print(stdout: Stdout, o: Output, text: &[u8]) -> Output
    ensures { Prints o (length text.now) result }
{
    if o.failed {
        return o;
    }
    let mut to = stdout;
    match write_all(&mut to, text) {
        Ok(()) => Output {
            bytes: o.bytes.wrapping_add(text.len()),
            failed: false,
            cause: 0,
        },
        Err(cause) => Output {
            bytes: o.bytes,
            failed: true,
            cause,
        },
    }
}
