// What is said of a sheet and of code, and the commands that check them.
#![tactic(auto)]

ghost use Rattle.std.specs.Prelude.{◌≡◌, Err, IfErr, IfOk, OnOk};
ghost use Rattle.sheet.specs.Judging.{check_sheet};

use files::Word;
use reader::{Decoded, Header};
use status::{Fault, Status};
use std::{fmt, io};
use text::Count;

// 4,096 bytes of a sheet are enough for the right answer on any file: the theorem `first_bytes` of the crate `rules`.
pub const SHEET_BYTES: u64 = 4096;

// 65,536 bytes of code are enough: more than 32,768 are refused whatever they are.
pub const CODE_BYTES: u64 = 65536;

// What an accepted sheet has.
#[derive(Clone, Copy, Debug, PartialEq, Eq)]
struct SheetSize {
    header: Header,
    bits: usize,
}

fn count(number: u64, noun: &'static str) -> Count {
    Count { number, noun }
}

impl fmt::Display for SheetSize {
    fn fmt<W: fmt::Write>(&self, f: &mut fmt::Formatter<W>) -> fmt::Result {
        let header = self.header;
        write!(
            f,
            "{}, {}, {}, {}, {}",
            count(u64::from(header.states), "state"),
            count(u64::from(header.inputs), "input"),
            count(u64::from(header.outputs), "output"),
            count(u64::from(header.transitions), "transition"),
            count(self.bits as u64, "bit"),
        )
    }
}

// How long code is.
#[derive(Clone, Copy, Debug, PartialEq, Eq)]
struct CodeSize(usize);

impl fmt::Display for CodeSize {
    fn fmt<W: fmt::Write>(&self, f: &mut fmt::Formatter<W>) -> fmt::Result {
        let bytes = self.0 as u64;
        write!(f, "{}, {}", count(bytes / 4, "word"), count(bytes, "byte"))
    }
}

fn size_of(sheet: &[u8]) -> SheetSize {
    let mut decoded = Decoded::empty();
    let read = reader::read_sheet(sheet, &mut decoded);
    SheetSize {
        header: decoded.header,
        bits: read.map_or(0, |end| end.at),
    }
}

// Says how long code is, after what became of it.
pub fn tell_code<W: io::Write>(
    rt: &HostRuntime,
    to: &mut W,
    became: &str,
    length: usize,
) -> Result<(), files::Fault> {
    status::tell(rt, to, format_args!("{became}: {}\n", CodeSize(length)))
}

// Reads the file that a word names, to its end or to the most bytes that are wanted.
pub fn read_file(rt: &HostRuntime, word: &Word, most: u64) -> Result<Vec<u8>, files::Fault> {
    files::read_file(rt, word.name(rt.alloc(), "a file's name")?, most)
}

pub fn check_sheet(rt: &HostRuntime, sheet: &[u8]) -> Result<Status, Fault>
    ensures refused { IfErr (check_sheet sheet.now) (λ why. result ≡ Err (Fault.Refused why)) }
    ensures accepted { IfOk result (λ status. status ≡ Status.Accepted) }
{
    sheet::check_sheet(sheet)?;
    status::tell(
        rt,
        &mut rt.stdout(),
        format_args!("accepted: {}\n", size_of(sheet)),
    )?;
    Ok(Status::Accepted)
}

pub fn check_command(rt: &HostRuntime, word: &Word) -> Result<Status, Fault>
    ensures { IfOk result (λ status. status ≡ Status.Accepted) }
{
    let sheet = read_file(rt, word, SHEET_BYTES)?;
    check_sheet(rt, sheet.as_slice())
}

pub fn check_code_command(rt: &HostRuntime, word: &Word) -> Result<Status, Fault>
    ensures { IfOk result (λ status. status ≡ Status.Accepted) }
{
    let code = read_file(rt, word, CODE_BYTES)?;
    faults::check_code(code.as_slice())?;
    tell_code(rt, &mut rt.stdout(), "accepted", code.len())?;
    Ok(Status::Accepted)
}

#[cfg(test)]
mod tests {
    use super::*;
    use std::test::Fail;

    // The paper's sheet M, P3, and the code of P11: 71 bits, 16 words and 64 bytes.
    #[test]
    fn tells_sizes(rt: HostRuntime) -> Result<(), Fail> {
        let mut told = Vec::new(rt.alloc());
        tell_code(&rt, &mut told, "translated", 64)?;
        assert_eq!(rt;
            told.as_slice(),
            b"translated: 16 words, 64 bytes\n".as_slice()
        );
        let size = size_of(&[8, 0, 8, 32, 0, 0, 0, 0, 128]).to_string(rt.alloc())?;
        assert_eq!(rt;
            size.as_str(),
            "2 states, 1 input, 1 output, 1 transition, 71 bits"
        );
        Ok(())
    }
}
