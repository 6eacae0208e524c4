// A run between its scans: code, beside a sheet's reference or alone, and their records. It begins with the cold start, or
// with a state and a clock that were asked for, and each scan holds the two records against one another.
#![tactic(auto)]

ghost use Rattle.std.specs.Prelude.{◌≡◌, ◌^◌, ◌<◌, ◌↔◌, None, Some, false};
ghost use Rattle.std.specs.Prelude.{IfErr, IfOk, IfSome, IsOk, IsSome, IsTrue, MatchOption, OnOk};
ghost use Rattle.machine.specs.Run.{record_with};
ghost use Rattle.scan.specs.Scan.{cold_scan, scan_sheet, state_with};
ghost use Rattle.translate.specs.Writing.{cold_run};
ghost use Rattle.start.specs.Run.{Agrees, ran_of};

use answer::Refusal;
use machine::Record;
use reader::Decoded;
use scan::State;
use std::fmt;
use table::{Change, Columns};
use trace::{Entry, Span};

// Where a run begins that is not begun from cold.
#[derive(Clone, Copy, Debug, Default, PartialEq, Eq)]
pub struct Start {
    pub state: u8,
    pub clock: u32,
}

impl Start {
    fn record(self, outputs: u16) -> Record
        ensures { self.state < 32 → result ≡ record_with (2 ^ self.state) outputs self.clock }
    {
        machine::record_with(flag_of(self.state).unwrap_or(0), outputs, self.clock)
    }

    fn reference(self, outputs: u16) -> State
        ensures { result ≡ state_with self.state outputs self.clock }
    {
        scan::state_with(self.state, outputs, self.clock)
    }
}

// Where the code is from that runs beside a reference.
#[derive(Clone, Copy, Debug, PartialEq, Eq)]
pub enum Source {
    Translated,
    Given,
}

// A sheet and the record of its reference.
#[derive(Clone, Copy)]
pub struct Reference<'a> {
    pub sheet: &'a [u8],
    pub source: Source,
    pub state: State,
}

// What is kept of a run: its code, the reference beside it, if there is one, and how far it came.
#[derive(Clone, Copy)]
pub struct Run<'a> {
    pub code: &'a [u8],
    pub record: Record,
    pub reference: Option<Reference<'a>>,
    pub opening: Change,
    pub span: Span,
    pub columns: Columns,
    pub scans: u64,
    pub time: u64,
}

// A scan after which code and reference differ.
#[derive(Clone, Copy)]
pub struct Difference {
    pub scan: u64,
    pub record: Record,
    pub reference: Option<(Source, State)>,
}

impl Difference {
    // Whether the code came from a file, and so need not do what the sheet says.
    pub fn is_of_given(&self) -> bool
        ensures { MatchOption self.now.reference (result ≡ false) (λ r. IsTrue result ↔ (r.0 ≡ Source.Given)) }
    {
        matches!(self.reference, Some((Source::Given, _)))
    }
}

// The scan's number, and both records in a line each.
impl fmt::Display for Difference {
    fn fmt<W: fmt::Write>(&self, f: &mut fmt::Formatter<W>) -> fmt::Result {
        let code = self.record;
        writeln!(f, "{}", self.scan)?;
        write!(f, "code: flag word {}, output word ", code.flags)?;
        write!(f, "{}, clock {}", code.outputs, code.clock)?;
        let Some((_, reference)) = self.reference else {
            return Ok(());
        };
        write!(f, "\nreference: state {}, output word ", reference.state)?;
        write!(f, "{}, clock {}", reference.outputs, reference.clock)
    }
}

// The flag of a state's number, if there is one.
fn flag_of(state: u8) -> Option<u32>
    ensures flag { IfSome result (λ flag. flag ≡ 2 ^ state) }
    ensures known { IsSome result ↔ (state < 32) }
{
    if state < 32 { Some(1 << state) } else { None }
}

// An accepted sheet, decoded.
fn read(sheet: &[u8]) -> Decoded {
    let mut decoded = Decoded::empty();
    let _ = reader::read_sheet(sheet, &mut decoded);
    decoded
}

// Whether the runner's record is the reference's: its one flag is the state's, outputs and clock are the same.
fn agree(record: Record, state: State) -> bool
    ensures { IsTrue result ↔ Agrees «record» state }
{
    flag_of(state.state) == Some(record.flags)
        && record.outputs == state.outputs
        && record.clock == state.clock
}

impl<'a> Run<'a> {
    // Code beside the reference of an accepted sheet. It is refused where the sheet lacks the state that was asked for.
    pub fn beside(
        sheet: &'a [u8],
        code: &'a [u8],
        source: Source,
        start: Option<Start>,
    ) -> Result<Self, Refusal>
        ensures cold { start ≡ None → IsOk result }
        ensures refused { IfSome start (λ s. IfErr
            (scan_sheet sheet.now (state_with s.state 0 s.clock) 0 0).verdict
            (λ why. result ≡ Err why)) }
        ensures code { IfOk result (λ run. run.code.now ≡ code.now) }
        ensures reference { IfOk result (λ run. MatchOption run.reference ⊥
            (λ r. (r.sheet.now ≡ sheet.now) × (r.source ≡ source))) }
        ensures begun { IfOk result (λ run. (run.scans ≡ 0) × (run.time ≡ 0)) }
        ensures from_cold { start ≡ None → IfOk result
            (λ run. (run.record ≡ (cold_run sheet.now).«record»)
            × IfSome run.reference (λ r. r.state ≡ (cold_scan sheet.now).«record»)) }
    {
        let Decoded { header, rows, .. } = read(sheet);
        let (record, state) = match start {
            None => (
                translate::cold_run(sheet).record,
                scan::cold_scan(sheet).record,
            ),
            Some(start) => {
                scan::scan(sheet, start.reference(0), 0, 0).verdict?;
                let outputs = rows.get(start.state as usize).copied().unwrap_or(0);
                (start.record(outputs), start.reference(outputs))
            }
        };
        let reference = Reference {
            sheet,
            source,
            state,
        };
        Ok(Run {
            code,
            record,
            reference: Some(reference),
            opening: if start.is_none() {
                Change::ColdStart
            } else {
                Change::Start
            },
            span: Span::exactly(header.inputs),
            columns: Columns {
                inputs: header.inputs,
                outputs: header.outputs,
            },
            scans: 0,
            time: 0,
        })
    }

    // Code alone: only a sheet says what a state's outputs are, so they begin as 0.
    pub fn alone(code: &'a [u8], start: Option<Start>) -> Self
        ensures code { result.code.now ≡ code.now }
        ensures alone { result.reference ≡ None }
        ensures begun { (result.scans ≡ 0) × (result.time ≡ 0) }
        ensures record_of { MatchOption start (result.«record» ≡ record_with 1 0 0)
            (λ s. s.state < 32 → result.«record» ≡ record_with (2 ^ s.state) 0 s.clock) }
    {
        let start = start.unwrap_or_default();
        Run {
            code,
            record: start.record(0),
            reference: None,
            opening: Change::Start,
            span: Span { least: 1, most: 16 },
            columns: Columns {
                inputs: 16,
                outputs: 16,
            },
            scans: 0,
            time: 0,
        }
    }

    fn difference(&self) -> Difference
        ensures scan { result.scan ≡ self.now.scans }
        ensures record_of { result.«record» ≡ self.now.«record» }
    {
        Difference {
            scan: self.scans,
            record: self.record,
            reference: self.reference.map(|r| (r.source, r.state)),
        }
    }

    // The reference's scan, held against the record that the code left.
    fn compare(&mut self, entry: Entry) -> bool
        ensures agreed { IsTrue result → IfSome self.new.reference (λ r. Agrees self.new.«record» r.state) }
        ensures record_of { self.new.«record» ≡ self.old.«record» }
        ensures scans { self.new.scans ≡ self.old.scans }
        ensures alone { self.old.reference ≡ None → IsTrue result }
    {
        let Some(reference) = &mut self.reference else {
            return true;
        };
        let referred = scan::scan(
            reference.sheet,
            reference.state,
            entry.inputs,
            entry.elapsed,
        );
        reference.state = referred.record;
        referred.verdict.is_ok() && agree(self.record, referred.record)
    }

    // One scan, by the code and, where there is one, by the reference.
    pub fn scan(&mut self, entry: Entry) -> Result<Change, Difference>
        ensures ran { self.new.«record» ≡ (ran_of self.old entry).«record» }
        ensures agreed { OnOk result (IfSome self.new.reference (λ r. Agrees self.new.«record» r.state)) }
        ensures accepted { OnOk result ((ran_of self.old entry).verdict ≡ Ok tt) }
        ensures stayed { IfOk result
            (λ change. (change ≡ Change.Stayed) ↔ (self.old.«record».flags ≡ self.new.«record».flags)) }
        ensures differs { IfErr result (λ d. (d.scan ≡ self.new.scans) × (d.«record» ≡ self.new.«record»)) }
    {
        let before = self.record.flags;
        self.scans = self.scans.saturating_add(1);
        self.time = self.time.saturating_add(u64::from(entry.elapsed));
        let ran = machine::run(self.code, self.record, entry.inputs, entry.elapsed);
        self.record = ran.record;
        if ran.verdict.is_err() || !self.compare(entry) {
            return Err(self.difference());
        }
        Ok(if before == self.record.flags {
            Change::Stayed
        } else {
            Change::Moved
        })
    }
}
