// What a run ended with, told: a bad line, code and reference that differ, a file at fault.
#![tactic(auto)]

ghost use Rattle.std.specs.Prelude.{◌≡◌, IfOk, MatchResult, Ok};

use start::Difference;
use status::{Fault, Status};
use std::alloc::Global;
use std::io;
use std::io::Write;
use trace::BadLine;

fn bad_line(alloc: Global, name: &[u8], line: BadLine) -> io::Result<Vec<u8>> {
    let mut said = Vec::new(alloc);
    text::push_name(&mut said, name)?;
    write!(said, ", {line}")?;
    Ok(said)
}

// That the translated code differs is proved impossible: whoever reads that has a broken machine or a broken build.
// Code that was given may differ: it does not do what the sheet says.
fn differs(rt: &HostRuntime, difference: Difference) -> Result<Status, Fault>
    ensures { IfOk result (λ status. status ≡ Status.Refused) }
{
    if difference.is_of_given() {
        status::tell(
            rt,
            &mut rt.stdout(),
            format_args!("differs: the code from the reference, in scan {difference}\n"),
        )?;
        return Ok(Status::Refused);
    }
    let said = format!(in rt.alloc(); "CODE AND REFERENCE DIFFER, use neither: scan {difference}")?;
    Err(Fault::Said(said.into_bytes()))
}

// The status of a run on the trace of this name, or the fault that ended it.
pub fn status_of(
    rt: &HostRuntime,
    name: &[u8],
    played: Result<(), play::Fault>,
) -> Result<Status, Fault>
    ensures { MatchResult played (λ _. result ≡ Ok Status.Accepted)
        (λ _. IfOk result (λ status. status ≡ Status.Refused)) }
{
    let alloc = rt.alloc();
    match played {
        Ok(()) => Ok(Status::Accepted),
        Err(play::Fault::BadLine(line)) => match bad_line(alloc, name, line) {
            Ok(said) => Err(Fault::Said(said)),
            Err(_) => Err(Fault::File(files::Fault::OutOfMemory)),
        },
        Err(play::Fault::Differs(difference)) => differs(rt, difference),
        Err(play::Fault::NotRead(e)) => Err(Fault::File(files::Fault::of_file(alloc, name, e))),
        Err(play::Fault::NotWritten(e)) => {
            Err(Fault::File(files::Fault::of_stream(alloc, b"standard output", e)))
        }
        Err(play::Fault::OutOfMemory) => Err(Fault::File(files::Fault::OutOfMemory)),
    }
}
