// Runs the paper's worked cases, and a stored file of random cases with the answers of the second program (host/README.md,
// "The file of cases"), and says whether every answer agrees.
#![tactic(auto)]

mod file;
mod judge;
mod paper;
mod say;
mod tally;

use say::Report;

// Without memory for a file nothing is said of its answers.
fn main(rt: HostRuntime) {
    let mut report = Report::new(&rt);
    let Some(sheet) = file::load(&rt, "two-contact.sheet", 256) else {
        return;
    };
    paper::judge_all(&mut report, sheet.as_slice());
    let Some(cases) = file::load(&rt, "cases.bin", file::ROOM) else {
        return;
    };
    file::judge_all(&mut report, cases.as_slice());
    report.total();
}
