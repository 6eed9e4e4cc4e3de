// How a run of the program ends.
ghost use Rattle.std.specs.Prelude.{◌≡◌};
ghost use Rattle.ep_top.specs.End.{status_of};

use std::fmt;
use std::fmt::{Display, Formatter, Write};

/// How a run of the program ended. `at` is a place in the stream of the bytes taken.
#[derive(Clone, Copy, Debug, PartialEq, Eq)]
pub enum End {
    /// The command line is no command.
    BadWords,
    NoMemory,
    /// The byte at `at` begins no request.
    BadMagic { at: u64 },
    /// The frame at `at` says a body above the limit.
    TooLong { at: u64 },
    /// Input ended inside the frame that begins at `at`.
    Torn { at: u64 },
    /// A session takes 2^40 bytes at most.
    Limit,
    ReadFault,
    WriteFault,
    /// A Quit was served.
    Quit,
    /// Input ended behind a whole frame.
    Closed,
}

impl End {
    /// The status with which the program ends.
    pub fn status(self) -> u8
        ensures { result ≡ status_of self }
    {
        match self {
            End::Quit | End::Closed => 0,
            End::BadWords => 2,
            End::Torn { .. } => 3,
            End::BadMagic { .. } => 4,
            End::TooLong { .. } => 5,
            End::ReadFault => 6,
            End::WriteFault => 7,
            End::NoMemory => 10,
            End::Limit => 16,
        }
    }
}

/// The line that the program prints, without its line feed.
impl Display for End {
    fn fmt<W: Write>(&self, f: &mut Formatter<W>) -> fmt::Result {
        match self {
            End::BadWords => f.write_str("bad words"),
            End::NoMemory => f.write_str("no memory"),
            End::BadMagic { at } => write!(f, "bad magic at {at}"),
            End::TooLong { at } => write!(f, "too long at {at}"),
            End::Torn { at } => write!(f, "torn at {at}"),
            End::Limit => f.write_str("limit"),
            End::ReadFault => f.write_str("read fault"),
            End::WriteFault => f.write_str("write fault"),
            End::Quit => f.write_str("quit"),
            End::Closed => f.write_str("closed"),
        }
    }
}
