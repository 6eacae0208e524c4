// How a command ends, and what it says of that.
#![tactic(auto)]

ghost use Rattle.std.specs.Prelude.{◌≡◌};
ghost use Rattle.files.specs.Name.{word_bytes};
ghost use Rattle.status.specs.Ending.{EndsWith, IsOfWord};

use answer::Refusal;
use explain::Explained;
use files::Word;
use std::alloc::{AllocError, AllocFailed, Global};
use std::fmt::Display;
use std::io;
use std::io::Write;
use std::process::ExitCode;

#[derive(Clone, Copy, Debug, PartialEq, Eq)]
pub enum Status {
    Accepted,
    Refused,
    // Usage, a file, or a bad line of a trace.
    Failed,
    // Nobody reads what is written: the program says nothing and ends as one that the system's signal for that ends.
    Closed,
}

// What a fault of usage says on its second line.
const MORE: &str = "'chz help' shows the commands";

// The bytes that a fault of a word has on its first line, at the most.
const MOST: usize = 4096;

// What the program ends with, by which the launcher learns the status.
impl From<Status> for ExitCode {
    ghost use Rattle.std.specs.Process.{exit_status};
    ghost use Rattle.status.specs.Ending.{exit_of};

    ghost from_gives = { λ status code. exit_status code ≡ exit_of status };

    fn from(status: Status) -> ExitCode {
        ExitCode::from(match status {
            Status::Accepted => 0u8,
            Status::Refused => 1,
            Status::Failed => 2,
            Status::Closed => 141,
        })
    }
}

// Why a command came to no answer of its own.
#[derive(Drop)]
pub enum Fault {
    // How the program was called.
    Usage(&'static str),
    // The same, with the word that was meant.
    Word { what: &'static str, word: Vec<u8> },
    File(files::Fault),
    Refused(Refusal),
    // A fault in the words of whoever found it, without the line's end.
    Said(Vec<u8>),
}

impl Fault {
    pub fn of_word(alloc: Global, what: &'static str, word: &Word) -> Fault
        ensures { IsOfWord what.now (word_bytes word.now) result }
    {
        match word.bytes().to_vec(alloc) {
            Ok(word) => Fault::Word { what, word },
            Err(e) => Fault::from(e),
        }
    }

    // Tells the fault, a refusal on standard output and all else on standard error: the status that the command ends with.
    pub fn tell(&self, rt: &HostRuntime) -> Status
        ensures { EndsWith self.now result }
    {
        match self {
            Fault::Usage(what) => say(rt, usage_lines(rt.alloc(), what)),
            Fault::Word { what, word } => say(rt, word_lines(rt.alloc(), what, word.as_slice())),
            Fault::Said(said) => say(rt, said_line(rt.alloc(), said.as_slice())),
            Fault::File(fault) => tell_file(rt, fault),
            Fault::Refused(why) => match tell(rt, &mut rt.stdout(), Explained(*why)) {
                Ok(()) => Status::Refused,
                Err(fault) => tell_file(rt, &fault),
            },
        }
    }
}

impl From<files::Fault> for Fault {
    ghost use Rattle.status.specs.declared.Fault.TheVariants.{File};

    ghost from_gives = { λ fault told. told ≡ File fault };

    fn from(fault: files::Fault) -> Fault {
        Fault::File(fault)
    }
}

impl From<Refusal> for Fault {
    ghost use Rattle.status.specs.declared.Fault.TheVariants.{Refused};

    ghost from_gives = { λ why told. told ≡ Refused why };

    fn from(why: Refusal) -> Fault {
        Fault::Refused(why)
    }
}

impl From<AllocError> for Fault {
    ghost use Rattle.files.specs.declared.Fault.TheVariants.{OutOfMemory};
    ghost use Rattle.status.specs.declared.Fault.TheVariants.{File};

    ghost from_gives = { λ _ told. told ≡ File OutOfMemory };

    fn from(e: AllocError) -> Fault {
        Fault::File(files::Fault::from(e))
    }
}

impl<T: Drop> From<AllocFailed<T>> for Fault {
    ghost use Rattle.files.specs.declared.Fault.TheVariants.{OutOfMemory};
    ghost use Rattle.status.specs.declared.Fault.TheVariants.{File};

    ghost from_gives = { λ _ told. told ≡ File OutOfMemory };

    fn from(e: AllocFailed<T>) -> Fault {
        Fault::File(files::Fault::from(e))
    }
}

fn usage_lines(alloc: Global, what: &str) -> io::Result<Vec<u8>> {
    let mut lines = Vec::new(alloc);
    writeln!(lines, "chz: {what}\n{MORE}")?;
    Ok(lines)
}

fn word_lines(alloc: Global, what: &str, word: &[u8]) -> io::Result<Vec<u8>> {
    let mut lines = Vec::new(alloc);
    write!(lines, "chz: {what} '")?;
    text::push_name(&mut lines, word)?;
    writeln!(lines, "'")?;
    lines.truncate(MOST);
    writeln!(lines, "{MORE}")?;
    Ok(lines)
}

fn said_line(alloc: Global, said: &[u8]) -> io::Result<Vec<u8>> {
    let mut line = Vec::new(alloc);
    write!(line, "chz: ")?;
    line.extend_from_slice(said)?;
    writeln!(line)?;
    Ok(line)
}

// Says what could be put into words. Where standard error takes nothing, there is nobody to tell.
fn say(rt: &HostRuntime, lines: io::Result<Vec<u8>>) -> Status
    ensures { result ≡ Status.Failed }
{
    let _ = match lines {
        Ok(lines) => rt.stderr().write_all(lines.as_slice()),
        Err(_) => rt.stderr().write_all(b"chz: out of memory\n"),
    };
    Status::Failed
}

fn tell_file(rt: &HostRuntime, fault: &files::Fault) -> Status
    ensures { EndsWith (Fault.File fault.now) result }
{
    match fault {
        files::Fault::Closed => Status::Closed,
        _ => say(rt, fault.line(rt.alloc())),
    }
}

// Writes an answer in one piece, to standard output unless the code goes there.
pub fn tell<W: io::Write, D: Display + Drop>(
    rt: &HostRuntime,
    to: &mut W,
    said: D,
) -> Result<(), files::Fault> {
    let said = said.to_string(rt.alloc())?;
    files::write_output(rt.alloc(), to, said.as_bytes())
}

#[cfg(test)]
mod tests {
    use super::*;
    use std::test::Fail;

    // P4 of the paper: 6, bit 71.
    const TAIL: &[u8] =
        b"refused: 6 TAIL at bit 71\nOnly zero bits up to the byte may follow the last condition, and more follows here: look at byte 8, bit 7 (both from 0, the top bit first).\n";

    #[test]
    fn tells_a_refusal(rt: HostRuntime) -> Result<(), Fail> {
        let mut told = Vec::new(rt.alloc());
        tell(&rt, &mut told, Explained(Refusal::Tail(71)))?;
        assert_eq!(rt; told.as_slice(), TAIL);
        Ok(())
    }
}
