// One stored case: the call is made, and its whole answer is compared.
use answer::Checked;
use machine::Record;
use scan::State;
use std::fmt;

// The byte that the buffer of a translation is filled with before the call.
const FILL: u8 = 165;

// The most room that a case gives a translation.
const ROOM: usize = 32768;

// What a case asks.
#[derive(Clone, Copy, Debug, PartialEq, Eq)]
pub enum Call {
    CheckSheet,
    CheckCode,
    Translate,
    ColdScan,
    ColdRun,
    Scan,
    Run,
}

impl Call {
    pub const ALL: [Call; 7] = [
        Call::CheckSheet,
        Call::CheckCode,
        Call::Translate,
        Call::ColdScan,
        Call::ColdRun,
        Call::Scan,
        Call::Run,
    ];

    // The call of a number in the file, from 1 on.
    fn of(number: u8) -> Option<Call> {
        let at = usize::from(number).checked_sub(1)?;
        Call::ALL.get(at).copied()
    }
}

impl fmt::Display for Call {
    fn fmt<W: fmt::Write>(&self, f: &mut fmt::Formatter<W>) -> fmt::Result {
        f.write_str(match self {
            Call::CheckSheet => "check_sheet",
            Call::CheckCode => "check_code",
            Call::Translate => "translate",
            Call::ColdScan => "cold_scan",
            Call::ColdRun => "cold_run",
            Call::Scan => "scan",
            Call::Run => "run",
        })
    }
}

// A record, whose word is a state's number or a flag word.
#[derive(Clone, Copy, Debug, PartialEq, Eq)]
struct Numbers {
    word: u32,
    outputs: u16,
    clock: u32,
}

impl From<State> for Numbers {
    fn from(r: State) -> Numbers {
        Numbers {
            word: u32::from(r.state),
            outputs: r.outputs,
            clock: r.clock,
        }
    }
}

impl From<Record> for Numbers {
    fn from(r: Record) -> Numbers {
        Numbers {
            word: r.flags,
            outputs: r.outputs,
            clock: r.clock,
        }
    }
}

// A case: what is given, and what is to be answered.
#[derive(Clone, Copy)]
pub struct Case<'a> {
    pub call: Option<Call>,
    pub number: u8,
    place: u32,
    inputs: u16,
    elapsed: u32,
    given: Numbers,
    answered: Numbers,
    room: u32,
    length: u32,
    bytes: &'a [u8],
    written: &'a [u8],
}

// The next bytes, which are taken off.
fn next<const N: usize>(rest: &mut &[u8]) -> Option<[u8; N]> {
    let (field, after) = rest.split_first_chunk::<N>()?;
    *rest = after;
    Some(*field)
}

fn half(rest: &mut &[u8]) -> Option<u16> {
    Some(u16::from_be_bytes(next::<2>(rest)?))
}

pub fn word(rest: &mut &[u8]) -> Option<u32> {
    Some(u32::from_be_bytes(next::<4>(rest)?))
}

impl<'a> Case<'a> {
    // The case at the front, and what follows it, if it is wholly there.
    pub fn split(all: &'a [u8]) -> Option<(Self, &'a [u8])> {
        let mut rest = all;
        let [call, number] = next::<2>(&mut rest)?;
        let inputs = half(&mut rest)?;
        let place = word(&mut rest)?;
        let elapsed = word(&mut rest)?;
        let given_word = word(&mut rest)?;
        let given_clock = word(&mut rest)?;
        let given_outputs = half(&mut rest)?;
        let outputs = half(&mut rest)?;
        let answered = Numbers {
            word: word(&mut rest)?,
            outputs,
            clock: word(&mut rest)?,
        };
        let room = word(&mut rest)?;
        let length = word(&mut rest)?;
        let bytes = word(&mut rest)? as usize;
        let written = word(&mut rest)? as usize;
        let (bytes, rest) = rest.split_at_checked(bytes)?;
        let (written, rest) = rest.split_at_checked(written)?;
        let case = Case {
            call: Call::of(call),
            number,
            place,
            inputs,
            elapsed,
            given: Numbers {
                word: given_word,
                outputs: given_outputs,
                clock: given_clock,
            },
            answered,
            room,
            length,
            bytes,
            written,
        };
        Some((case, rest))
    }

    // Whether the verdict has the number and the place of the case.
    fn is_answered(&self, verdict: Checked) -> bool {
        answer::number_of(verdict) == u32::from(self.number)
            && answer::place_of(verdict) as u64 == u64::from(self.place)
    }

    // The same, and the record that the case answers.
    fn is_reached<R: Into<Numbers> + Drop>(&self, verdict: Checked, record: R) -> bool {
        self.is_answered(verdict) && record.into() == self.answered
    }

    // A state's number has a byte.
    fn state(&self) -> State {
        let state = (self.given.word % 256) as u8;
        scan::state_with(state, self.given.outputs, self.given.clock)
    }

    fn record(&self) -> Record {
        machine::record_with(self.given.word, self.given.outputs, self.given.clock)
    }

    // Whether the buffer begins with the code, and after it is as it was before the call.
    fn is_written(&self, buffer: &[u8]) -> bool {
        match buffer.strip_prefix(self.written) {
            Some(rest) => rest.iter().all(|b| *b == FILL),
            None => false,
        }
    }

    fn translates(&self) -> bool {
        let mut buffer = [FILL; ROOM];
        let Some(room) = buffer.get_mut(..self.room as usize) else {
            return false;
        };
        let translated = translate::translate(self.bytes, room);
        translated.length as u64 == u64::from(self.length)
            && self.is_answered(translated.verdict)
            && self.is_written(&buffer)
    }

    // Whether the call of the case answers as the case says.
    pub fn agrees(&self) -> bool {
        let Some(call) = self.call else {
            return false;
        };
        match call {
            Call::CheckSheet => self.is_answered(sheet::check_sheet(self.bytes)),
            Call::CheckCode => self.is_answered(faults::check_code(self.bytes)),
            Call::Translate => self.translates(),
            Call::ColdScan => {
                let cold = scan::cold_scan(self.bytes);
                self.is_reached(cold.verdict, cold.record)
            }
            Call::ColdRun => {
                let cold = translate::cold_run(self.bytes);
                self.is_reached(cold.verdict, cold.record)
            }
            Call::Scan => {
                let done = scan::scan(self.bytes, self.state(), self.inputs, self.elapsed);
                self.is_reached(done.verdict, done.record)
            }
            Call::Run => {
                let done = machine::run(self.bytes, self.record(), self.inputs, self.elapsed);
                self.is_reached(done.verdict, done.record)
            }
        }
    }
}
