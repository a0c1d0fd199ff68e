// What the program `console` reads and writes: standard input, a text, its help.
#![tactic(auto)]

pub mod fault;
pub mod help;

ghost use Rattle.std.specs.Prelude.{◌≤◌, length, OnOk};
ghost use Rattle.std.specs.Io.KnownBytes.{Appends};
ghost use Rattle.console_streams.specs.Filled.{Filled, Taken};
ghost use Rattle.console_streams.specs.Put.{Put};

use std::io::{self, ErrorKind, Read, Write};

// Reads more into `input`, after the first `have` bytes, and says how many there are then.
pub fn fill<R: Read>(from: &mut R, input: &mut [u8], have: usize) -> io::Result<usize>
    requires { have ≤ length input.old }
    ensures filled { Filled input.old input.new have result }
    ensures taken { Taken (R.remaining from.old) (R.remaining from.new) input.new have result }
{
    let got = from.read(&mut input[have..])?;
    Ok(have + got)
}

// Writes all of `text`, or says why it did not. A write that is interrupted is tried again.
pub fn put<W: Write>(to: &mut W, text: &[u8]) -> io::Result<()>
    ensures none { Put text.now result }
    ensures all { OnOk result (Appends (W.contents to.old) (W.contents to.new) text.now) }
{
    // std's `write_all` has other words for a write of no bytes, and promises nothing of an empty text.
    let mut done = 0;
    for _ in 0..u64::MAX {
        if done == text.len() {
            break;
        }
        match to.write(&text[done..]) {
            Ok(0) => return Err(io::Error::from(ErrorKind::WriteZero)),
            Ok(got) => done += got,
            Err(e) if e.kind() == ErrorKind::Interrupted => {}
            Err(e) => return Err(e),
        }
    }
    if done < text.len() {
        return Err(io::Error::from(ErrorKind::TimedOut));
    }
    Ok(())
}
