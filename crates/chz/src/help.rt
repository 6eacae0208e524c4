// What the program says of itself.
use status::{Fault, Status};
use std::alloc::Global;
use std::io;

const HELP: [&str; 12] = [
    "chz checks, translates and runs sheets: Boolean state machines for safety PLCs\n\n",
    "  chz check SHEET            is the sheet accepted? if not: the number, the place and what it means\n",
    "  chz check --code CODE      the same of code\n",
    "  chz translate SHEET CODE   writes the sheet's code; the file - is standard output\n",
    "  chz run SHEET TRACE        runs the code and the reference side by side, a line a scan\n",
    "  chz run --code CODE TRACE  runs code alone; with --sheet SHEET beside that sheet's reference\n",
    "      --state S --clock MS   start from there and not from cold\n",
    "  chz demo                   the two-contact sheet and the scans P12, with no file needed\n",
    "  chz help, chz version      this page; the version\n\n",
    "A trace is text, a scan a line: the input bits, input 0 first, a blank and the elapsed ms, as '110 99'.\n",
    "# starts a comment, blank lines are passed over, and the trace - is standard input.\n",
    "Exit status: 0 accepted, 1 refused, 2 a fault of usage, of a file or of a line of the trace.\n",
];

// Tries every line, whatever became of those before it. The last fault is kept.
fn write_help<W: io::Write>(alloc: Global, to: &mut W) -> Result<(), files::Fault> {
    let mut done = Ok(());
    for line in HELP {
        if let Err(fault) = files::write_output(alloc, to, line.as_bytes()) {
            done = Err(fault);
        }
    }
    done
}

// The help that was asked for.
pub fn help_command(rt: &HostRuntime) -> Result<Status, Fault> {
    write_help(rt.alloc(), &mut rt.stdout())?;
    Ok(Status::Accepted)
}

pub fn version_command(rt: &HostRuntime) -> Result<Status, Fault> {
    status::tell(rt, &mut rt.stdout(), "chz 0.1.0\n")?;
    Ok(Status::Accepted)
}

// The help that a call without a command shows.
pub fn no_command(rt: &HostRuntime) -> Status {
    let _ = write_help(rt.alloc(), &mut rt.stderr());
    Status::Failed
}
