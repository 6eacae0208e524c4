// The columns of a run. Their widths hold the largest numbers that can occur: 15 digits of scans take a hundred years,
// 20 are the most that a sum of times has, and inputs and outputs have as many columns as the sheet has of them.
#![tactic(auto)]

ghost use Rattle.std.specs.Prelude.{◌≡◌, Some};
ghost use Rattle.table.specs.Shown.{change_text, flags_text, state_of};

use machine::Record;
use std::fmt;
use text::Bits;

// How many inputs and outputs a run shows. They have columns as wide as their names at the least.
#[derive(Clone, Copy, Debug, PartialEq, Eq)]
pub struct Columns {
    pub inputs: u32,
    pub outputs: u32,
}

impl Columns {
    fn input_width(&self) -> usize {
        (self.inputs as usize).max("inputs".len())
    }

    fn output_width(&self) -> usize {
        (self.outputs as usize).max("outputs".len())
    }
}

// The columns' names.
impl fmt::Display for Columns {
    fn fmt<W: fmt::Write>(&self, f: &mut fmt::Formatter<W>) -> fmt::Result {
        let inputs = self.input_width();
        let outputs = self.output_width();
        write!(
            f,
            "{:>15}  {:>20}  {:inputs$}  {:>5}  {:outputs$}  {:>10}",
            "scan", "time ms", "inputs", "state", "outputs", "clock ms"
        )
    }
}

// The number of the one flag that is set, if it is one alone.
fn state_of(flags: u32) -> Option<u32>
    ensures { result ≡ state_of flags }
{
    flags.is_power_of_two().then_some(flags.trailing_zeros())
}

// Where a flag word says that a run is: a state, or the word itself where it is not one flag alone.
#[derive(Clone, Copy, Debug, PartialEq, Eq)]
pub struct Flags(pub u32);

impl fmt::Display for Flags {
    ghost output = { flags_text };

    fn fmt<W: fmt::Write>(&self, f: &mut fmt::Formatter<W>) -> fmt::Result {
        match state_of(self.0) {
            Some(state) => write!(f, "state {state}"),
            None => write!(f, "flags {:08x}", self.0),
        }
    }
}

// How a run came to the record of a line.
#[derive(Clone, Copy, Debug, PartialEq, Eq)]
pub enum Change {
    ColdStart,
    Start,
    Moved,
    Stayed,
}

impl fmt::Display for Change {
    ghost output = { λ change. Some (change_text change) };

    fn fmt<W: fmt::Write>(&self, f: &mut fmt::Formatter<W>) -> fmt::Result {
        f.write_str(match self {
            Change::ColdStart => "cold start",
            Change::Start => "start",
            Change::Moved => "moved",
            Change::Stayed => "stayed",
        })
    }
}

// A line of a run: its start, which has no inputs, or a scan.
#[derive(Clone, Copy)]
pub struct Row {
    pub columns: Columns,
    pub scans: u64,
    pub time: u64,
    pub inputs: Option<Bits>,
    pub record: Record,
    pub change: Change,
}

impl fmt::Display for Row {
    fn fmt<W: fmt::Write>(&self, f: &mut fmt::Formatter<W>) -> fmt::Result {
        let width = self.columns.input_width();
        write!(f, "{:>15}  {:>20}  ", self.scans, self.time)?;
        match self.inputs {
            Some(inputs) => write!(f, "{inputs:width$}  ")?,
            None => write!(f, "{:width$}  ", "-")?,
        }
        let state = state_of(self.record.flags);
        match state {
            Some(state) => write!(f, "{state:>5}  ")?,
            None => write!(f, "{:>5}  ", "-")?,
        }
        let outputs = Bits {
            word: u32::from(self.record.outputs),
            count: self.columns.outputs as usize,
        };
        let width = self.columns.output_width();
        write!(f, "{outputs:width$}  ")?;
        write!(f, "{:>10}  ", self.record.clock)?;
        write!(f, "{}", self.change)?;
        match state {
            Some(_) => Ok(()),
            None => write!(f, ", {}", Flags(self.record.flags)),
        }
    }
}
