// The machine: one scan of code that passed its check.
#![tactic(auto)]

ghost use Rattle.std.specs.Prelude.{◌≡◌, false, List, [], map, ◌+◌, ◌*◌, ◌/◌, ◌%◌, ◌<◌};
ghost use Rattle.answer.specs.Checked.{answered_of};
ghost use mir.Val.{bool_byte};
ghost use Rattle.words.specs.Op.{op_no};
ghost use Rattle.words.specs.Word.{known, decode, words};
ghost use Rattle.faults.specs.Check.{check_code};
ghost use Rattle.machine.specs.Machine.{Frame, flag_to, out_to, exec};
ghost use Rattle.machine.specs.Run.{record_with, mach_of, record_of, run_code, Runs};
ghost use Rattle.machine.specs.inside.Midway.{mach_in, join_top, enc, Executable, Executes};

use answer::{Answered, Refusal};
use words::Op;

// What a scan is given and hands back: flag s has weight 2^s, output a has weight 2^a.
#[derive(Clone, Copy, Debug, PartialEq, Eq)]
pub struct Record {
    pub flags: u32,
    pub outputs: u16,
    pub clock: u32,
}

// A scan's answer: where the code is refused, the record is the one that was given.
pub type Ran = Answered<Record>;

// The one builder of a record.
pub fn record_with(flags: u32, outputs: u16, clock: u32) -> Record
    ensures { result ≡ record_with flags outputs clock }
{
    Record {
        flags,
        outputs,
        clock,
    }
}

// The machine between two words. What is put aside, 8 at the most, stands in one number and on no heap: in base 4, the last
// one in the lowest digit, 2 for AND(, 1 for a true result.
#[derive(Clone, Copy, Debug, PartialEq, Eq)]
struct Midway {
    record: Record,
    at: usize,
    result: bool,
    aside: u32,
}

impl Midway {
    // AND( and OR(: one more digit.
    fn put_aside(&mut self, and: bool)
        requires { self.old.aside < 65536 }
        ensures { let m = self.old in self.new ≡ record m { aside = m.aside * 4 + 2 * bool_byte and + bool_byte m.result } }
    {
        self.aside = self.aside * 4 + 2 * (and as u32) + (self.result as u32);
    }

    // ): the lowest digit is joined with the result and taken off.
    #[tactic(auto, unfolding(crate::specs::inside::Midway::join_top))]
    fn join(&mut self)
        ensures { let m = self.old in self.new ≡ record m { result = join_top (m.aside % 4) m.result; aside = m.aside / 4 } }
    {
        let top = self.aside % 4;
        let kept = top % 2 == 1;
        self.result = if top < 2 {
            kept | self.result
        } else {
            kept & self.result
        };
        self.aside /= 4;
    }

    // R and S.
    #[tactic(auto, unfolding(crate::specs::Machine::flag_to))]
    fn flag_to(&mut self, i: u32, on: bool)
        requires { i < 32 }
        ensures { let m = self.old in self.new ≡ record m { «record» = record_of (flag_to m.result (mach_in m) i on) } }
    {
        let flags = self.record.flags;
        self.record.flags = if self.result {
            bits::put_bit(flags, i, on)
        } else {
            flags
        };
    }

    // RA and SA, in a word of 16 bits. One function for both words would be given it and hand it back: no plainer.
    #[tactic(auto, unfolding(crate::specs::Machine::out_to))]
    fn output_to(&mut self, i: u32, on: bool)
        requires { i < 16 }
        ensures { let m = self.old in self.new ≡ record m { «record» = record_of (out_to m.result (mach_in m) i on) } }
    {
        let outputs = self.record.outputs;
        self.record.outputs = if self.result {
            bits::put_bit(outputs as u32, i, on) as u16
        } else {
            outputs
        };
    }

    // One word that is not END.
    fn step(&mut self, op: Op, arg: usize, inputs: u16)
        requires { Executable op self.old.at arg self.old.aside }
        ensures { let m = self.old in
            (st : List Frame) → m.aside ≡ enc st → Executes inputs (known (op_no op) arg) m self.new st }
    {
        let bit = arg as u32;
        self.at += 1;
        match op {
            Op::End => unreachable!(),
            Op::Lds => self.result = bits::get_bit(self.record.flags, bit),
            Op::Ldi => self.result = bits::get_bit(inputs as u32, bit),
            Op::Not => self.result = !self.result,
            Op::And => self.put_aside(true),
            Op::Or => self.put_aside(false),
            Op::Close => self.join(),
            Op::Andt => self.result &= bit <= self.record.clock,
            Op::R => self.flag_to(bit, false),
            Op::S => self.flag_to(bit, true),
            Op::Ra => self.output_to(bit, false),
            Op::Sa => self.output_to(bit, true),
            Op::Jmpc => {
                if self.result {
                    self.at = arg;
                }
            }
            Op::Jmp => self.at = arg,
            Op::Tres => self.record.clock = 0,
        }
    }
}

// The words from 0 to END. In code that passed its check each word is known and goes on to a later one, so that a scan
// is no longer than the code.
fn execute(code: &[u8], inputs: u16, given: Record) -> Record
    requires { check_code code.now ≡ Ok tt }
    ensures { result ≡ record_of (exec inputs 0 (map decode (words code.now)) 0 (mach_of given) false [] 0).mach }
{
    let mut m = Midway {
        record: given,
        at: 0,
        result: false,
        aside: 0,
    };
    loop {
        let op = words::op_at(code, m.at).unwrap();
        if let Op::End = op {
            return m.record;
        }
        let arg = words::operand(code, m.at);
        m.step(op, arg, inputs);
    }
}

// The record after one scan of code.
#[tactic(auto, unfolding(crate::specs::Run::run_code, crate::specs::Machine::run_scan))]
fn ran(code: &[u8], given: Record, inputs: u16, elapsed: u32) -> Result<Record, Refusal>
    ensures { answered_of result given ≡ run_code code.now given inputs elapsed }
{
    faults::check_code(code)?;
    let clock = clock::bring_forward(given.clock, elapsed);
    Ok(execute(code, inputs, Record { clock, ..given }))
}

// One scan: refused code hands the record back as it was given.
pub fn run(code: &[u8], given: Record, inputs: u16, elapsed: u32) -> Ran
    ensures { Runs code.now given inputs elapsed result }
{
    Answered::of(ran(code, given, inputs, elapsed), given)
}
