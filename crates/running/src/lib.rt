// The command that runs: a sheet, or code alone or beside a sheet.
#![tactic(auto)]

use files::Word;
use options::Files::{One, Two};
use options::Options;
use report::{CODE_BYTES, SHEET_BYTES, read_file};
use start::{Run, Source, Start};
use status::{Fault, Status};
use std::io;

fn play_from<R: io::Read>(
    rt: &HostRuntime,
    run: Run,
    from: &mut R,
    name: &[u8],
) -> Result<Status, Fault> {
    let played = play::play_trace(rt.alloc(), run, from, rt.stdout());
    ending::status_of(rt, name, played)
}

// A trace that is held, on a sheet and its own code.
pub fn run_held(
    rt: &HostRuntime,
    sheet: &[u8],
    code: &[u8],
    trace: &[u8],
    name: &[u8],
) -> Result<Status, Fault> {
    let run = Run::beside(sheet, code, Source::Translated, None)?;
    let mut from = trace;
    play_from(rt, run, &mut from, name)
}

// What the user asked of a run, whatever is run: where it begins, if not from cold, and the trace that it follows.
#[derive(Drop)]
struct Request<'a> {
    rt: &'a HostRuntime,
    start: Option<Start>,
    trace: &'a Word,
}

// Where a run is to begin, if not from cold.
fn start_of(options: &Options) -> Result<Option<Start>, Fault> {
    let state = options::number_up_to(options.state, 31, "--state takes a number from 0 to 31")?;
    let clock = options::number_up_to(
        options.clock,
        u32::MAX,
        "--clock takes a number from 0 to 4294967295",
    )?;
    if state.is_none() && clock.is_none() {
        return Ok(None);
    }
    Ok(Some(Start {
        state: state.unwrap_or(0) as u8,
        clock: clock.unwrap_or(0),
    }))
}

impl<'a> Request<'a> {
    fn new(rt: &'a HostRuntime, options: &Options, trace: &'a Word) -> Result<Self, Fault> {
        let start = start_of(options)?;
        Ok(Request { rt, start, trace })
    }

    // Plays the trace, `-` being standard input.
    fn play(&self, run: Run) -> Result<Status, Fault> {
        let alloc = self.rt.alloc();
        let name = self.trace.name(alloc, "the trace's name")?;
        if matches!(name, b"-") {
            return play_from(self.rt, run, &mut self.rt.stdin(), b"standard input");
        }
        let mut file = files::open_read(self.rt, name).map_err(|e| files::Fault::of_file(
            alloc, name, e,
        ))?;
        play_from(self.rt, run, &mut file, name)
    }

    // The sheet's own code beside its reference.
    fn run_sheet(&self, sheet: &Word) -> Result<Status, Fault> {
        let sheet = read_file(self.rt, sheet, SHEET_BYTES)?;
        let sheet = sheet.as_slice();
        let code = rewrite::code_of(self.rt.alloc(), sheet)?;
        self.play(Run::beside(sheet, code.as_slice(), Source::Translated, self.start)?)
    }

    // The bytes of code that passed its check.
    fn read_code(&self, code: &Word) -> Result<Vec<u8>, Fault> {
        let code = read_file(self.rt, code, CODE_BYTES)?;
        faults::check_code(code.as_slice())?;
        Ok(code)
    }

    // Code from a file, alone.
    fn run_code(&self, code: &Word) -> Result<Status, Fault> {
        let code = self.read_code(code)?;
        self.play(Run::alone(code.as_slice(), self.start))
    }

    // Code from a file, beside a sheet's reference.
    fn run_beside(&self, sheet: &Word, code: &Word) -> Result<Status, Fault> {
        let sheet = read_file(self.rt, sheet, SHEET_BYTES)?;
        let sheet = sheet.as_slice();
        sheet::check_sheet(sheet)?;
        let code = self.read_code(code)?;
        self.play(Run::beside(sheet, code.as_slice(), Source::Given, self.start)?)
    }
}

const USAGE: &str =
    "run takes a sheet and a trace: chz run SHEET TRACE, or chz run --code CODE TRACE";

// A sheet, code or both, and a trace.
pub fn run_command(rt: &HostRuntime, options: &Options) -> Result<Status, Fault> {
    match (options.sheet, options.code, options.files) {
        (None, None, Two(sheet, trace)) => Request::new(rt, options, trace)?.run_sheet(sheet),
        (Some(sheet), None, One(trace)) => Request::new(rt, options, trace)?.run_sheet(sheet),
        (None, Some(code), One(trace)) => Request::new(rt, options, trace)?.run_code(code),
        (Some(sheet), Some(code), One(trace)) => Request::new(rt, options, trace)?.run_beside(
            sheet, code,
        ),
        _ => Err(Fault::Usage(USAGE)),
    }
}
