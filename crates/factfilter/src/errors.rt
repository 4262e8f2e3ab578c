// Why the program gives no answer, and its words for it on standard error.
ghost use Rattle.std.specs.Prelude.{◌≡◌};
ghost use Rattle.factfilter.specs.declared.errors.Error.TheVariants.{Unwritten};
ghost use Rattle.factfilter.specs.Errors.{refusal_told};

use model::{Refusal, Verdict};
use std::io::{self, Write};

// The words name no call, standard input or output fails, or the file is refused: why, and its line.
#[derive(Clone, Copy)]
pub enum Error {
    NoPosition,
    UnknownWord,
    Unread,
    Unwritten,
    Refused(Refusal, u32),
}

// A failed write: where standard input fails, `Unread` is said at the read.
impl From<io::Error> for Error {
    ghost from_gives = { λ _ e. e ≡ Unwritten };

    fn from(_: io::Error) -> Error {
        Error::Unwritten
    }
}

// `Ok` where a call accepts, else the refusal and its place as an error.
#[tactic(auto, unfolding(crate::specs::Errors::refusal_told))]
pub fn told(v: Verdict, place: u32) -> Result<(), Error>
    ensures { result ≡ refusal_told v place }
{
    match v {
        Verdict::Accepted => Ok(()),
        Verdict::Refused(r) => Err(Error::Refused(r, place)),
    }
}

// Says a refusal in words.
fn say_refusal<W: Write>(writer: &mut W, r: Refusal, place: u32) -> io::Result<()> {
    let mut text = [0u8; 128];
    let n = printing::reason_line(r, place, &mut text);
    writer.write_all(&text[..n])
}

// Says an error in words.
pub fn say<W: Write>(writer: &mut W, e: Error) -> io::Result<()> {
    match e {
        Error::NoPosition => {
            writer.write_all(b"why takes a position, a number of at most 65,535\n")
        }
        Error::UnknownWord => writer.write_all(
            b"there is no such word; there are list, why POSITION, sweep, order and summaries\n",
        ),
        Error::Unread => writer.write_all(b"standard input cannot be read\n"),
        Error::Unwritten => writer.write_all(b"standard output cannot be written\n"),
        Error::Refused(r, place) => say_refusal(writer, r, place),
    }
}
