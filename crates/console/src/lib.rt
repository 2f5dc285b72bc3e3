// What the programs share: reading all input and answering it at once.
#![tactic(auto)]

ghost use Rattle.io.specs.Counts.{IsPrefixLen};
ghost use Rattle.std.specs.Io.KnownBytes.{Consumes, IsAtEnd};
ghost use Rattle.std.specs.Prelude.{◌≡◌, ◌<◌, length, take, OnOk, IfOk, IfErr};
ghost use Rattle.console.specs.Answered.{Answered};
ghost use Rattle.console.specs.Loss.{IsReading, bytes_read};
ghost use Rattle.console.specs.declared.Lost.TheVariants.{Reading};

use std::convert::AsSlice;
use std::io::{Error, Read, Write};
use std::{fmt, io};

// Reading broke off: how many bytes had been read, and why no more were.
#[derive(Clone, Copy, Debug)]
pub struct Cut {
    pub read: usize,
    pub why: Error,
}

// Fills `buffer` until it is full, the input ends or a read fails. What is counted is what was read,
// and where no read failed and there is room left, it is all that there was.
pub fn read_input<R: Read>(from: &mut R, buffer: &mut [u8]) -> Result<usize, Cut>
    ensures counts { IsPrefixLen (bytes_read result) buffer.new }
    ensures bytes { Consumes (R.remaining from.old) (R.remaining from.new) (take (bytes_read result) buffer.new) }
    ensures end { IfOk result (λ n. n < length buffer.new → IsAtEnd (R.remaining from.new)) }
{
    let mut read = 0;
    // Only the reader knows how many reads it takes, so this is no walk over anything that is there before it.
    while read < buffer.len() {
        match from.read(&mut buffer[read..]) {
            Ok(0) => return Ok(read),
            Ok(more) => read += more,
            Err(why) => return Err(Cut { read, why }),
        }
    }
    Ok(read)
}

// The system's number of the error at a descriptor that is not open, EBADF.
const NOT_OPEN: i32 = 9;

// A reader that ends where it is not open: a closed standard input is an empty one.
#[derive(Drop)]
pub struct OrClosed<R>(pub R);

impl<R: Read> Read for OrClosed<R> {
    fn read(&mut self, buf: &mut [u8]) -> io::Result<usize> {
        match self.0.read(buf) {
            Err(error) if error.raw_os_error() == Some(NOT_OPEN) => Ok(0),
            read => read,
        }
    }
}

// What broke off, and why.
#[derive(Clone, Copy, Debug)]
pub enum Lost {
    Reading(Error),
    Writing(Error),
}

impl From<Cut> for Lost {
    ghost from_gives = { λ cut lost. lost ≡ Reading cut.why };

    fn from(cut: Cut) -> Lost
        ensures { result ≡ Lost.Reading cut.why }
    {
        Lost::Reading(cut.why)
    }
}

impl fmt::Display for Lost {
    fn fmt<W: fmt::Write>(&self, f: &mut fmt::Formatter<W>) -> fmt::Result {
        match self {
            Lost::Reading(error) => write!(f, "standard input: {error}"),
            Lost::Writing(error) => write!(f, "standard output: {error}"),
        }
    }
}

// Writes what `report` gives of all that `from` has. One byte more than a text can have is read, so that a longer input
// is known to be longer.
pub fn answer<R: Read, W: Write, T: AsSlice<u8> + Drop, F: FnOnce(&[u8]) -> T>(
    from: &mut R,
    to: &mut W,
    report: F,
) -> Result<(), Lost>
    requires { F.IsAlwaysCallable report }
    ensures ok { OnOk result (Answered F.FnOnce T.items report (R.remaining from.old) (W.contents to.old) (W.contents to.new)) }
    ensures err { IfErr result (λ lost. IsReading lost → to.new ≡ to.old) }
{
    let mut bytes = [0u8; 65537];
    let read = read_input(from, &mut bytes)?;
    let said = report(&bytes[..read]);
    to.write_all(said.as_slice()).map_err(Lost::Writing)
}
