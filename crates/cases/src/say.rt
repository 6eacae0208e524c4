// What the program prints, and what it counts of that.
use crate::tally::Tally;
use std::fmt::Display;

// What was said of the answers so far.
#[derive(Drop)]
pub struct Report<'a> {
    rt: &'a HostRuntime,
    pub tally: Tally,
}

impl<'a> Report<'a> {
    pub fn new(rt: &'a HostRuntime) -> Self {
        let tally = Tally::default();
        Report { rt, tally }
    }

    // Where nobody reads the report, there is nobody to tell.
    pub fn say<D: Display + Drop>(&self, line: D) {
        let _ = self.rt.println(line);
    }

    // A worked case of the paper.
    pub fn worked<D: Display + Drop>(&mut self, name: D, agrees: bool) {
        let verdict = if agrees { "ok" } else { "DIFFERS" };
        self.say(format_args!("{name}: {verdict}"));
        self.tally.count(agrees);
    }

    // An answer that differs, for what is said.
    pub fn fault(&mut self, what: &str) {
        self.say(what);
        self.tally.count(false);
    }

    pub fn total(&self) {
        let differ = self.tally.differ;
        let all = self.tally.all();
        if differ == 0 {
            self.say(format_args!("all {all} answers agree"));
        } else {
            self.say(format_args!("{differ} of {all} answers DIFFER"));
        }
    }
}
