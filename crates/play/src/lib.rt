// A trace played: its scans made and printed, a line a scan.
#![tactic(auto)]

ghost use Rattle.std.specs.Prelude.{◌≡◌};

use start::{Difference, Run};
use std::alloc::{AllocError, Global};
use std::fmt::Display;
use std::io;
use table::{Change, Flags, Row};
use text::{Bits, Count};
use trace::{BadLine, Entry, Trace};

// Why a trace was not played to its end.
#[derive(Drop)]
pub enum Fault {
    BadLine(BadLine),
    Differs(Difference),
    NotRead(io::Error),
    NotWritten(io::Error),
    OutOfMemory,
}

impl From<BadLine> for Fault {
    ghost use Rattle.play.specs.declared.Fault.TheVariants as fault;

    ghost from_gives = { λ line told. told ≡ fault.BadLine line };

    fn from(line: BadLine) -> Fault {
        Fault::BadLine(line)
    }
}

impl From<Difference> for Fault {
    ghost use Rattle.play.specs.declared.Fault.TheVariants as fault;

    ghost from_gives = { λ difference told. told ≡ fault.Differs difference };

    fn from(difference: Difference) -> Fault {
        Fault::Differs(difference)
    }
}

impl From<AllocError> for Fault {
    ghost use Rattle.play.specs.declared.Fault.TheVariants as fault;

    ghost from_gives = { λ _ told. told ≡ fault.OutOfMemory };

    fn from(_: AllocError) -> Fault {
        Fault::OutOfMemory
    }
}

// How much a page holds, and room that a printed line never needs more of.
const PAGE: usize = 65536;

const ROOM: usize = 256;

// What is printed and not yet written. A BufWriter is not the same: what a failed write leaves it writes once more when it is
// dropped.
#[derive(Drop)]
struct Page<W: Drop> {
    to: W,
    text: String,
}

impl<W: io::Write + Drop> Page<W> {
    fn new(alloc: Global, to: W) -> Result<Self, AllocError> {
        let text = String::with_capacity(alloc, PAGE)?;
        Ok(Page { to, text })
    }

    fn write_out(&mut self) -> Result<(), Fault> {
        let written = self.to.write_all(self.text.as_bytes());
        self.text.clear();
        written.map_err(Fault::NotWritten)
    }

    fn put<D: Display + Drop>(&mut self, line: D) -> Result<(), Fault> {
        writeln!(self.text, "{line}")?;
        Ok(())
    }

    // Writes out the page where a further line might not fit.
    fn turn(&mut self) -> Result<(), Fault> {
        if PAGE - ROOM < self.text.len() {
            return self.write_out();
        }
        Ok(())
    }
}

// The line of the record that a run has come to.
fn row(run: &Run, inputs: Option<Bits>, change: Change) -> Row {
    Row {
        columns: run.columns,
        scans: run.scans,
        time: run.time,
        inputs,
        record: run.record,
        change,
    }
}

// A run, the trace that it follows, and its page.
#[derive(Drop)]
struct Play<'a, W: Drop> {
    run: Run<'a>,
    trace: Trace,
    page: Page<W>,
}

impl<'a, W: io::Write + Drop> Play<'a, W> {
    // The table's head and the line of the start stand on the page.
    fn begin(alloc: Global, run: Run<'a>, to: W) -> Result<Self, Fault> {
        let mut page = Page::new(alloc, to)?;
        page.put(run.columns)?;
        page.put(row(&run, None, run.opening))?;
        let trace = Trace::new(run.span);
        Ok(Play { run, trace, page })
    }

    // A scan, printed.
    fn scan(&mut self, entry: Entry) -> Result<(), Fault> {
        let change = self.run.scan(entry)?;
        let inputs = Bits {
            word: u32::from(entry.inputs),
            count: entry.bits as usize,
        };
        self.page.put(row(&self.run, Some(inputs), change))?;
        self.page.turn()
    }

    fn take(&mut self, part: &[u8]) -> Result<(), Fault> {
        for b in part {
            if let Some(entry) = self.trace.take(*b)? {
                self.scan(entry)?;
            }
        }
        Ok(())
    }

    // The last line, by which a short trace is seen.
    fn close(&mut self) -> Result<(), Fault> {
        self.trace.end()?;
        let scans = Count {
            number: self.run.scans,
            noun: "scan",
        };
        let time = self.run.time;
        let flags = Flags(self.run.record.flags);
        self.page
            .put(format_args!("ended: {scans}, {time} ms, {flags}"))
    }

    // The page is written before each read, so that whoever types a trace sees each answer. A proved loop has to end, and
    // nothing says that a file does, so it counts its turns up to a number that no run uses up.
    fn follow<R: io::Read>(&mut self, from: &mut R) -> Result<(), Fault> {
        let mut part = [0u8; PAGE];
        for _ in 0..u64::MAX {
            self.page.write_out()?;
            match files::read_some(from, &mut part) {
                Ok(0) => return self.close(),
                Ok(n) => self.take(&part[..n])?,
                Err(e) => return Err(Fault::NotRead(e)),
            }
        }
        Ok(())
    }
}

// Plays a trace to its end. All that stands on the page is written, whatever ended it.
pub fn play_trace<R: io::Read, W: io::Write + Drop>(
    alloc: Global,
    run: Run,
    from: &mut R,
    to: W,
) -> Result<(), Fault> {
    let mut play = Play::begin(alloc, run, to)?;
    let played = play.follow(from);
    play.page.write_out()?;
    played
}

#[cfg(test)]
mod tests {
    use super::*;
    use start::Source;
    use std::test::Fail;

    // The paper's sheet M and its code, which stay in state 0.
    const M: [u8; 9] = [8, 0, 8, 32, 0, 0, 0, 0, 128];

    const CODE_OF_M: [u8; 64] = [
        1, 0, 0, 1, 4, 0, 0, 0, 2, 0, 0, 0, 3, 0, 0, 0, 6, 0, 0, 0, 8, 0, 0, 1, 9, 0, 0, 0, 12, 0,
        0, 9, 13, 0, 0, 15, 11, 0, 0, 0, 14, 0, 0, 0, 13, 0, 0, 15, 10, 0, 0, 0, 14, 0, 0, 0, 13,
        0, 0, 15, 0, 0, 0, 0,
    ];

    const TABLE: [&str; 4] = [
        "           scan               time ms  inputs  state  outputs    clock ms\n",
        "              0                     0  -           0  1                 0  cold start\n",
        "              1                     7  1           0  1                 7  stayed\n",
        "ended: 1 scan, 7 ms, state 0\n",
    ];

    #[test]
    fn plays_a_scan(rt: HostRuntime) -> Result<(), Fail> {
        let Ok(run) = Run::beside(&M, &CODE_OF_M, Source::Translated, None) else {
            return Err(Fail::new("M is refused"));
        };
        let mut from = b"1 7\n".as_slice();
        let mut written = Vec::new(rt.alloc());
        if play_trace(rt.alloc(), run, &mut from, &mut written).is_err() {
            return Err(Fail::new("the trace is not played"));
        }
        let table = format!(in rt.alloc(); "{}{}{}{}", TABLE[0], TABLE[1], TABLE[2], TABLE[3])?;
        assert_eq!(rt; written.as_slice(), table.as_bytes());
        Ok(())
    }
}
