// Calls of the operating system, tried again where a signal interrupted them. What it did, no promise can say; what its
// answers mean, `told` settles.
ghost use Rattle.std.specs.Prelude.{◌≤◌, IfOk, length};
ghost use Rattle.program_io.specs.Calls.{TellsOf};

use std::io;
use std::io::{ErrorKind, Read, Stderr, Stdin, Stdout, Write};

// The three streams of a run, which its `main` has of its runtime.
#[derive(Clone, Copy)]
pub struct Streams {
    pub stdin: Stdin,
    pub stdout: Stdout,
    pub stderr: Stderr,
}

// What the answer of a call means: how many bytes it moved, none at the end of a file, or the system's number for why it failed.
fn told(got: &io::Result<usize>) -> Result<usize, i32>
    ensures { TellsOf got.now result }
{
    match got {
        Ok(n) => Ok(*n),
        Err(e) => Err(cause_of(e)),
    }
}

// Did a signal interrupt the call that said this?
fn is_interrupted(got: &io::Result<usize>) -> bool {
    match got {
        Ok(_) => false,
        Err(e) => e.kind() == ErrorKind::Interrupted,
    }
}

// The system's number for why a call failed; 0 where it has none.
pub(crate) fn cause_of(e: &io::Error) -> i32 {
    e.raw_os_error().unwrap_or(0)
}

// Reads into buf.
pub(crate) fn read<R: Read>(from: &mut R, buf: &mut [u8]) -> Result<usize, i32>
    ensures { IfOk result (λ n. n ≤ length buf.old) }
{
    for _ in 0..u64::MAX {
        let got = from.read(buf);
        if !is_interrupted(&got) {
            return told(&got);
        }
    }
    Err(0)
}

// Writes the front of buf.
fn write<W: Write>(to: &mut W, buf: &[u8]) -> Result<usize, i32>
    ensures { IfOk result (λ n. n ≤ length buf.now) }
{
    for _ in 0..u64::MAX {
        let got = to.write(buf);
        if !is_interrupted(&got) {
            return told(&got);
        }
    }
    Err(0)
}

// Writes all of buf. A call that writes nothing has failed.
pub(crate) fn write_all<W: Write>(to: &mut W, buf: &[u8]) -> Result<(), i32> {
    let mut from = 0;
    // a step is as long as what was written
    while from < buf.len() {
        let n = write(to, &buf[from..])?;
        if n == 0 {
            return Err(0);
        }
        from += n;
    }
    Ok(())
}

// Writes all of a text on standard error; a failure there is nowhere to be said.
pub(crate) fn tell(stderr: Stderr, text: &[u8]) {
    let mut to = stderr;
    let _unsaid = write_all(&mut to, text);
}
