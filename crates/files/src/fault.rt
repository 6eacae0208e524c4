// Why a file or a stream was not read or written, and how that is told.
ghost use Rattle.std.specs.Prelude.{◌≡◌, IfOk};
ghost use Rattle.std.specs.IoError.{error_kind};
ghost use Rattle.std.specs.declared.io.ErrorKind.TheVariants.{BrokenPipe};
ghost use Rattle.files.specs.Fault.{IsLine, IsOfFile};

use std::alloc::{AllocError, AllocFailed, Global};
use std::fmt::InlineText;
use std::io::{ErrorKind, Write};
use std::{fmt, io};

#[derive(Debug, Drop)]
pub enum Fault {
    // The file of this name is at fault, for the system's reason.
    File { name: Vec<u8>, error: io::Error },
    // The name of the code's file leaves no room for that of the new file beside it.
    LongName,
    // Nobody reads what is written.
    Closed,
    OutOfMemory,
}

impl Fault {
    // A fault of the file of this name.
    pub fn of_file(alloc: Global, name: &[u8], error: io::Error) -> Fault
        ensures { IsOfFile name.now error result }
    {
        match name.to_vec(alloc) {
            Ok(name) => Fault::File { name, error },
            Err(_) => Fault::OutOfMemory,
        }
    }

    // A fault of a stream that is written to.
    pub fn of_stream(alloc: Global, name: &[u8], error: io::Error) -> Fault
        ensures unread { error_kind error ≡ BrokenPipe → result ≡ Fault.Closed }
        ensures other { ¬ (error_kind error ≡ BrokenPipe) → IsOfFile name.now error result }
    {
        if error.kind() == ErrorKind::BrokenPipe {
            return Fault::Closed;
        }
        Fault::of_file(alloc, name, error)
    }

    // The fault's line, which is empty where nobody reads.
    pub fn line(&self, alloc: Global) -> io::Result<Vec<u8>>
        ensures { IfOk result (λ line. IsLine self.now line.items) }
    {
        let mut line = Vec::new(alloc);
        match self {
            Fault::File { name, error } => {
                write!(line, "chz: ")?;
                text::push_name(&mut line, name.as_slice())?;
                writeln!(line, ": {}", Reason(error))?;
            }
            Fault::LongName => writeln!(line, "chz: the name of the code's file is too long")?,
            Fault::OutOfMemory => writeln!(line, "chz: out of memory")?,
            Fault::Closed => {}
        }
        Ok(line)
    }
}

// Writes what standard output is for; a fault is told of it.
pub fn write_output<W: io::Write>(alloc: Global, to: &mut W, bytes: &[u8]) -> Result<(), Fault> {
    to.write_all(bytes)
        .map_err(|e| Fault::of_stream(alloc, b"standard output", e))
}

impl From<AllocError> for Fault {
    ghost use Rattle.files.specs.declared.fault.Fault.TheVariants.{OutOfMemory};

    ghost from_gives = { λ _ fault. fault ≡ OutOfMemory };

    fn from(_: AllocError) -> Fault {
        Fault::OutOfMemory
    }
}

impl<T: Drop> From<AllocFailed<T>> for Fault {
    ghost use Rattle.files.specs.declared.fault.Fault.TheVariants.{OutOfMemory};

    ghost from_gives = { λ _ fault. fault ≡ OutOfMemory };

    fn from(_: AllocFailed<T>) -> Fault {
        Fault::OutOfMemory
    }
}

// The reason of an error, without the number that the system's have in parentheses after it.
#[derive(Clone, Copy, Debug)]
pub struct Reason<'a>(pub &'a io::Error);

impl fmt::Display for Reason<'_> {
    fn fmt<W: fmt::Write>(&self, f: &mut fmt::Formatter<W>) -> fmt::Result {
        let all = InlineText::<256>::of(self.0);
        let all = all.as_str();
        let reason = match all.rsplit_once(" (") {
            Some((reason, _)) if self.0.raw_os_error().is_some() => reason,
            _ => all,
        };
        f.write_str(reason)
    }
}

#[cfg(test)]
mod tests {
    use super::*;
    use std::test::Fail;

    // The system's number for a file that there is not, and its words.
    #[test]
    fn tells_a_missing_file(rt: HostRuntime) -> Result<(), Fail> {
        let missing = io::Error::from_raw_os_error(2);
        let line = Fault::of_file(rt.alloc(), b"a\nb.sheet", missing).line(rt.alloc())?;
        assert_eq!(rt;
            line.as_slice(),
            b"chz: a?b.sheet: No such file or directory\n".as_slice()
        );
        Ok(())
    }
}
