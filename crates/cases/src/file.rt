// The file of cases, one case after the other.
use crate::judge;
use crate::judge::{Call, Case};
use crate::say::Report;
use files::Reason;
use std::fmt;
use std::io::Read;

// A file of cases is shorter.
pub const ROOM: u64 = 307200;

// The bytes of a file, up to a most, to its end or to a read that fails. There is room for all from the first read on: what
// a read of some pipes has no room for is lost. None where there is no memory, which is told.
pub fn load(rt: &HostRuntime, name: &str, most: u64) -> Option<Vec<u8>> {
    let mut all = Vec::new(rt.alloc());
    if all.reserve(most as usize).is_err() {
        let _ = eprintln!(rt; "{name}: out of memory");
        return None;
    }
    match files::open_read(rt, name.as_bytes()) {
        Ok(file) => {
            let _ = file.take(most).read_to_end(&mut all);
        }
        Err(e) => {
            let _ = eprintln!(rt; "{name}: {}", Reason(&e));
        }
    }
    Some(all)
}

// How many numbers there are, 0 among them.
const NUMBERS: usize = 19;

// How often each call answered each number.
#[derive(Clone, Copy, Debug)]
struct Answers {
    counts: [[u32; NUMBERS]; 7],
}

impl Answers {
    fn note(&mut self, call: Call, number: u8) {
        if let Some(count) = self.counts[call as usize].get_mut(usize::from(number)) {
            *count = count.saturating_add(1);
        }
    }
}

// A line a call.
impl fmt::Display for Answers {
    fn fmt<W: fmt::Write>(&self, f: &mut fmt::Formatter<W>) -> fmt::Result {
        write!(f, "answers, number:count")?;
        for call in Call::ALL {
            write!(f, "\n{call}")?;
            for (number, count) in self.counts[call as usize].iter().enumerate() {
                if *count > 0 {
                    write!(f, " {number}:{count}")?;
                }
            }
        }
        Ok(())
    }
}

// The case of this number, counted by its call and its answer's number.
fn judge_one(report: &mut Report, at: u64, case: &Case, answers: &mut Answers) {
    if let Some(call) = case.call {
        answers.note(call, case.number);
    }
    let agrees = case.agrees();
    if !agrees {
        match case.call {
            Some(call) => report.say(format_args!("case {at}, {call}: DIFFERS")),
            None => report.say(format_args!("case {at}, no call: DIFFERS")),
        }
    }
    report.tally.count(agrees);
}

// As many cases as the file says; one that is not wholly there counts as one that differs.
fn judge_each(report: &mut Report, all: &[u8], count: u32, answers: &mut Answers) {
    let mut rest = all;
    for at in 1..=u64::from(count) {
        let Some((case, after)) = Case::split(rest) else {
            return report.fault("a case is not wholly there");
        };
        judge_one(report, at, &case, answers);
        rest = after;
    }
    if !rest.is_empty() {
        report.fault("more follows the last case");
    }
}

// All cases of the file.
pub fn judge_all(report: &mut Report, all: &[u8]) {
    if all.len() as u64 >= ROOM {
        return report.fault("the file of cases does not fit");
    }
    let mut rest = all;
    let Some(count) = judge::word(&mut rest) else {
        return report.fault("there is no file of cases");
    };
    let mut answers = Answers {
        counts: [[0; NUMBERS]; 7],
    };
    judge_each(report, rest, count, &mut answers);
    report.say(format_args!("{count} stored cases"));
    report.say(answers);
}
