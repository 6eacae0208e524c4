// The paper's worked cases, P1 to P14, and those that stand below them.
use crate::say::Report;
use answer::Checked;
use machine::Record;
use reader::Decoded;
use scan::State;

// M, which is accepted.
const M: [u8; 9] = [8, 0, 8, 32, 0, 0, 0, 0, 128];

// Sheets, most of them M with a change, each with the number and the place that it is answered.
const JUDGED: [(&str, &[u8], u32, usize); 10] = [
    ("P1", &[], 1, 0),
    ("P2", &[0], 2, 0),
    ("P5", &[8, 0, 8, 32, 0, 0, 0, 0, 128, 0], 6, 71),
    ("P6", &[8, 0, 8, 32, 0, 0, 0, 0], 1, 63),
    ("P3", &M, 0, 0),
    ("P4", &[8, 0, 8, 32, 0, 0, 0, 0, 129], 6, 71),
    ("P7", &[8, 0, 8, 64, 0, 0, 0, 0, 128], 3, 22),
    ("P8", &[8, 0, 8, 0, 0, 0, 0, 0, 128], 7, 0),
    ("P9", &[8, 0, 0, 32, 0, 0, 0, 0, 128], 13, 0),
    ("P10", &[8, 0, 8, 32, 0, 0, 0, 0, 130], 4, 67),
];

// P11: the code of M.
const CODE_OF_M: [u8; 64] = [
    1, 0, 0, 1, 4, 0, 0, 0, 2, 0, 0, 0, 3, 0, 0, 0, 6, 0, 0, 0, 8, 0, 0, 1, 9, 0, 0, 0, 12, 0, 0,
    9, 13, 0, 0, 15, 11, 0, 0, 0, 14, 0, 0, 0, 13, 0, 0, 15, 10, 0, 0, 0, 14, 0, 0, 0, 13, 0, 0,
    15, 0, 0, 0, 0,
];

// A scan: its inputs and its elapsed ms, and the state and the clock that it is to reach.
#[derive(Clone, Copy, Debug)]
struct Turn(u16, u32, u8, u32);

// Scans of the two-contact sheet, from cold or from a state and a clock.
const SCANS: [(&str, Option<(u8, u32)>, &[Turn]); 5] = [
    (
        "P12",
        None,
        &[
            Turn(1, 10, 1, 0),
            Turn(3, 10, 3, 0),
            Turn(3, 99, 3, 99),
            Turn(3, 1, 5, 0),
            Turn(7, 10, 5, 10),
            Turn(1, 10, 1, 0),
            Turn(7, 10, 8, 0),
            Turn(6, 5, 0, 0),
        ],
    ),
    ("P13", Some((3, 99)), &[Turn(7, 1, 5, 0)]),
    ("P14", Some((3, 99)), &[Turn(7, 0, 8, 0)]),
    ("from cold 111/10", Some((0, 0)), &[Turn(7, 10, 1, 0)]),
    ("in state 0 011/50", Some((0, 7)), &[Turn(6, 50, 0, 57)]),
];

// By number and place, as the paper writes its cases.
fn is(verdict: Checked, number: u32, place: usize) -> bool {
    answer::number_of(verdict) == number && answer::place_of(verdict) == place
}

// What makes scans of the two-contact sheet: its reference, or its code.
trait Runner {
    fn name(&self) -> &'static str;

    fn begin_cold(&mut self);

    fn begin_at(&mut self, state: u8, outputs: u16, clock: u32);

    // Makes a scan: whether it is accepted, and reaches what it is to reach.
    fn reaches(&mut self, turn: Turn) -> bool;
}

#[derive(Clone, Copy)]
struct Reference<'a> {
    sheet: &'a [u8],
    record: State,
}

impl Runner for Reference<'_> {
    fn name(&self) -> &'static str {
        "reference"
    }

    fn begin_cold(&mut self) {
        self.record = scan::cold_scan(self.sheet).record;
    }

    fn begin_at(&mut self, state: u8, outputs: u16, clock: u32) {
        self.record = scan::state_with(state, outputs, clock);
    }

    fn reaches(&mut self, turn: Turn) -> bool {
        let Turn(inputs, elapsed, state, clock) = turn;
        let done = scan::scan(self.sheet, self.record, inputs, elapsed);
        self.record = done.record;
        is(done.verdict, 0, 0) && self.record.state == state && self.record.clock == clock
    }
}

#[derive(Clone, Copy)]
struct Code<'a> {
    sheet: &'a [u8],
    code: &'a [u8],
    record: Record,
}

// The flag of a state. It has its like in `start`, which is the program's, and these cases stand on the library alone.
fn flag_of(state: u8) -> u32 {
    if state < 32 { 1 << state } else { 0 }
}

impl Runner for Code<'_> {
    fn name(&self) -> &'static str {
        "code"
    }

    fn begin_cold(&mut self) {
        self.record = translate::cold_run(self.sheet).record;
    }

    fn begin_at(&mut self, state: u8, outputs: u16, clock: u32) {
        self.record = machine::record_with(flag_of(state), outputs, clock);
    }

    fn reaches(&mut self, turn: Turn) -> bool {
        let Turn(inputs, elapsed, state, clock) = turn;
        let done = machine::run(self.code, self.record, inputs, elapsed);
        self.record = done.record;
        is(done.verdict, 0, 0) && self.record.flags == flag_of(state) && self.record.clock == clock
    }
}

// In state 0 the outputs are Ready alone, in the others that a case begins in activity alone.
fn runs<R: Runner>(runner: &mut R, from: Option<(u8, u32)>, turns: &[Turn]) -> bool {
    match from {
        None => runner.begin_cold(),
        Some((state, clock)) => {
            runner.begin_at(state, if state == 0 { 1 } else { 2 }, clock);
        }
    }
    for turn in turns {
        if !runner.reaches(*turn) {
            return false;
        }
    }
    true
}

fn judge_scans<R: Runner>(report: &mut Report, runner: &mut R) {
    for (name, from, turns) in SCANS {
        let agrees = runs(runner, from, turns);
        report.worked(format_args!("{name}, {}", runner.name()), agrees);
    }
}

// P11, with room for the code.
fn translates() -> bool {
    let mut buffer = [0u8; 64];
    let made = translate::translate(&M, &mut buffer);
    is(made.verdict, 0, 0) && made.length == 64 && buffer == CODE_OF_M
}

// P11, with a byte too little: nothing is written.
fn lacks_room() -> bool {
    let mut buffer = [0u8; 63];
    let made = translate::translate(&M, &mut buffer);
    is(made.verdict, 14, 64) && made.length == 0 && buffer == [0u8; 63]
}

// The two-contact sheet: 25 transitions, 1,319 bits, 165 bytes and 271 words of code.
fn has_its_sizes(sheet: &[u8], length: usize) -> bool {
    let mut decoded = Decoded::empty();
    let Ok(end) = reader::read_sheet(sheet, &mut decoded) else {
        return false;
    };
    let transitions = decoded.header.transitions;
    end.at == 1319 && transitions == 25 && sheet.len() == 165 && length == 1084
}

// All of them, those of the two-contact sheet on the sheet given.
pub fn judge_all(report: &mut Report, sheet: &[u8]) {
    for (name, sheet, number, place) in JUDGED {
        report.worked(name, is(sheet::check_sheet(sheet), number, place));
    }
    report.worked("P11", translates());
    report.worked("P11 with 63 bytes of room", lacks_room());
    let mut code = [0u8; 1084];
    let made = translate::translate(sheet, &mut code);
    report.worked("two-contact sheet", has_its_sizes(sheet, made.length));
    let record = scan::state_with(0, 0, 0);
    judge_scans(report, &mut Reference { sheet, record });
    let record = machine::record_with(0, 0, 0);
    let mut by_code = Code {
        sheet,
        code: &code,
        record,
    };
    judge_scans(report, &mut by_code);
}
