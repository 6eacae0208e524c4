// A trace, read from text: a scan a line, its input bits (input 0 first) and its elapsed ms, as `110 99`; # starts a
// comment. It is read a byte at a time, so that a line may have any length, nothing is held, and what is wrong is told
// at the byte that shows it.
#![tactic(auto)]

ghost use Rattle.std.specs.Prelude.{◌≡◌, ◌≤◌, min, None, Some, false, true, IfErr, IfOk, IfSome, IsNone, MatchResult, OnOk};
ghost use Rattle.trace.specs.Line.{IsLineOf, is_begun, line_number, lines_after};
ghost use Rattle.trace.specs.Shown.{bad_text, span_text};

use std::error::Error;
use std::fmt;
use text::Count;

// How many input bits a scan has: as many as the sheet has inputs, or any number that code can look at.
#[derive(Clone, Copy, Debug, PartialEq, Eq)]
pub struct Span {
    pub least: u32,
    pub most: u32,
}

impl Span {
    pub fn exactly(n: u32) -> Self
        ensures { result ≡ record { least = n; most = n } }
    {
        Span { least: n, most: n }
    }
}

impl fmt::Display for Span {
    ghost output = { λ s. Some (span_text s) };

    fn fmt<W: fmt::Write>(&self, f: &mut fmt::Formatter<W>) -> fmt::Result {
        if self.least != self.most {
            write!(f, "{} to ", self.least)?;
        }
        let most = Count {
            number: u64::from(self.most),
            noun: "input bit",
        };
        write!(f, "{most}")
    }
}

// What a line asks for: an input word, the count of bits that it was given by, and the elapsed ms.
#[derive(Clone, Copy, Debug, PartialEq, Eq)]
pub struct Entry {
    pub inputs: u16,
    pub bits: u32,
    pub elapsed: u32,
}

// What is wrong with a line.
#[derive(Clone, Copy, Debug, PartialEq, Eq)]
pub enum Fault {
    NotABit,
    FewBits(u32),
    ManyBits,
    NoTime,
    NotATime,
    LongTime,
    LateWord,
    LoneReturn,
    Cut,
}

// A line at fault, by its number, and how many bits were expected in it.
#[derive(Clone, Copy, Debug, PartialEq, Eq)]
pub struct BadLine {
    pub number: u64,
    pub fault: Fault,
    pub span: Span,
}

impl fmt::Display for BadLine {
    ghost output = { λ bad. Some (bad_text bad) };

    fn fmt<W: fmt::Write>(&self, f: &mut fmt::Formatter<W>) -> fmt::Result {
        let number = self.number;
        let span = self.span;
        write!(f, "line {number}: expected ")?;
        match self.fault {
            Fault::NotABit => write!(
                f,
                "{span}, each 0 or 1, and then the elapsed ms, as in '110 99'"
            ),
            Fault::FewBits(found) => write!(f, "{span}, found {found}"),
            Fault::ManyBits => write!(f, "{span}, found more"),
            Fault::NoTime => f.write_str("the elapsed ms after the input bits, as in '110 99'"),
            Fault::NotATime => f.write_str("the elapsed ms in digits, as in '110 99'"),
            Fault::LongTime => f.write_str("at most 4294967295 ms"),
            Fault::LateWord => f.write_str("the line's end after the ms, or a comment with #"),
            Fault::LoneReturn => f.write_str("a line feed after the carriage return"),
            Fault::Cut => f.write_str("a line end, and the trace ends before it"),
        }
    }
}

impl Error for BadLine {}

// How far a line was read. From the first digit of the ms on it has them.
#[derive(Clone, Copy, Debug, PartialEq, Eq)]
enum Phase {
    Start,
    Bits,
    Gap,
    Time(u32),
    After(u32),
    Comment(Option<u32>),
}

// A line as far as it was read: its phase, its input bits, and its last byte, if it has one. How many bits it may have is
// the trace's, and lent to each step: a line that held it would be given it anew with each line.
#[derive(Clone, Copy, Debug, PartialEq, Eq)]
struct Line {
    phase: Phase,
    inputs: u16,
    bits: u32,
    last: Option<u8>,
}

// The ms with one more digit, which are a 32-bit number.
fn with_digit(ms: u32, b: u8) -> Result<u32, Fault> {
    if !b.is_ascii_digit() {
        return Err(Fault::NotATime);
    }
    let digit = u32::from(b - b'0');
    ms.checked_mul(10)
        .and_then(|tens| tens.checked_add(digit))
        .ok_or(Fault::LongTime)
}

impl Line {
    fn new() -> Self
        ensures { result.last ≡ None }
    {
        Line {
            phase: Phase::Start,
            inputs: 0,
            bits: 0,
            last: None,
        }
    }

    fn take_bit(&mut self, b: u8, span: Span) -> Result<(), Fault> {
        let bit: u16 = match b {
            b'0' => 0,
            b'1' => 1,
            _ => return Err(Fault::NotABit),
        };
        // An input word has no more bits, whatever is asked for.
        if span.most.min(u16::BITS) <= self.bits {
            return Err(Fault::ManyBits);
        }
        self.inputs |= bit << self.bits;
        self.bits += 1;
        self.phase = Phase::Bits;
        Ok(())
    }

    // The phase after a blank: the bits are all there, or the ms.
    fn after_blank(&self, span: Span) -> Result<Phase, Fault> {
        match self.phase {
            Phase::Bits if self.bits < span.least => Err(Fault::FewBits(self.bits)),
            Phase::Bits => Ok(Phase::Gap),
            Phase::Time(ms) => Ok(Phase::After(ms)),
            phase => Ok(phase),
        }
    }

    // The ms of a line that ends here, or goes on with a comment, if it has any.
    fn time(&self, span: Span) -> Result<Option<u32>, Fault> {
        match self.after_blank(span)? {
            Phase::Start => Ok(None),
            Phase::Bits | Phase::Gap => Err(Fault::NoTime),
            Phase::Time(ms) | Phase::After(ms) => Ok(Some(ms)),
            Phase::Comment(time) => Ok(time),
        }
    }

    // The next byte, which is no line feed. A carriage return stands only before one.
    fn take(&mut self, b: u8, span: Span) -> Result<(), Fault> {
        if self.last == Some(b'\r') {
            return Err(Fault::LoneReturn);
        }
        self.last = Some(b);
        match (self.phase, b) {
            (Phase::Comment(_), _) | (_, b'\r') => {}
            (_, b'#') => self.phase = Phase::Comment(self.time(span)?),
            (_, b' ' | b'\t') => self.phase = self.after_blank(span)?,
            (Phase::Start | Phase::Bits, _) => self.take_bit(b, span)?,
            (Phase::Gap, _) => self.phase = Phase::Time(with_digit(0, b)?),
            (Phase::Time(ms), _) => self.phase = Phase::Time(with_digit(ms, b)?),
            (Phase::After(_), _) => return Err(Fault::LateWord),
        }
        Ok(())
    }

    // The scan of a line that ends here, if it has one.
    fn entry(&self, span: Span) -> Result<Option<Entry>, Fault> {
        let time = self.time(span)?;
        Ok(time.map(|elapsed| Entry {
            inputs: self.inputs,
            bits: self.bits,
            elapsed,
        }))
    }
}

// A trace as far as it was read: how many lines are whole, and the one after them.
#[derive(Clone, Copy, Debug, PartialEq, Eq)]
pub struct Trace {
    span: Span,
    lines: u64,
    line: Line,
}

impl Trace {
    pub fn new(span: Span) -> Self
        ensures span { result.span ≡ span }
        ensures first { result.lines ≡ 0 }
        ensures begun { is_begun result ≡ false }
    {
        Trace {
            span,
            lines: 0,
            line: Line::new(),
        }
    }

    fn bad(&self, fault: Fault) -> BadLine
        ensures { result ≡ record { number = line_number self.now; fault = fault; span = self.now.span } }
    {
        BadLine {
            number: self.lines.saturating_add(1),
            fault,
            span: self.span,
        }
    }

    // The next byte. A line feed gives the scan of its line, if it has one.
    pub fn take(&mut self, b: u8) -> Result<Option<Entry>, BadLine>
        ensures refused { IfErr result (λ bad. IsLineOf self.old bad) }
        ensures within { IfOk result (λ given. IfSome given (λ _. b ≡ 10)) }
        ensures lines { OnOk result (self.new.lines ≡ lines_after self.old b) }
        ensures span { self.new.span ≡ self.old.span }
    {
        if b != b'\n' {
            self.line
                .take(b, self.span)
                .map_err(|fault| self.bad(fault))?;
            return Ok(None);
        }
        let entry = self.line.entry(self.span).map_err(|fault| self.bad(fault))?;
        self.lines = self.lines.saturating_add(1);
        self.line = Line::new();
        Ok(entry)
    }

    // The trace's end. A line that was begun lacks its line end, and what is missing nobody knows.
    pub fn end(&self) -> Result<(), BadLine>
        ensures { MatchResult result (λ _. is_begun self.now ≡ false)
            (λ bad. (is_begun self.now ≡ true)
            × (bad ≡ record { number = line_number self.now; fault = Fault.Cut; span = self.now.span })) }
    {
        match self.line.last {
            None => Ok(()),
            Some(_) => Err(self.bad(Fault::Cut)),
        }
    }
}
