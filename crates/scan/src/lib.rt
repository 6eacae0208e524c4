// The reference scan: one scan that works from the sheet, and its cold start.
#![tactic(auto)]

ghost use Rattle.std.specs.Prelude.{◌≡◌, ◌<◌};
ghost use Rattle.answer.specs.Checked.{answered_of};
ghost use Rattle.condition.specs.inside.Reach.{cond_reach};
ghost use Rattle.reader.specs.Sheet.{Transition, Sheet};
ghost use Rattle.reader.specs.inside.Decoding.{Holds, Copy};
ghost use Rattle.sheet.specs.inside.Opening.{Good};
ghost use Rattle.scan.specs.Scan.{can, best, state_with, scan_sheet, zeros, cold_scan, Scans, ColdScans};
ghost use Rattle.scan.specs.inside.Picking.{Picks, took_of};

use answer::{Answered, Refusal};
use bits::Cursor;
use reader::{Arrow, Decoded};

// The reference's record: the active state, its outputs (output a has weight 2^a) and the clock.
#[derive(Clone, Copy, Debug, PartialEq, Eq)]
pub struct State {
    pub state: u8,
    pub outputs: u16,
    pub clock: u32,
}

// A scan's answer: where it is refused, the record is the one that was given.
pub type Scanned = Answered<State>;

// The one builder of a record: this one is the reference's, that of `machine` has flags for the state.
pub fn state_with(state: u8, outputs: u16, clock: u32) -> State
    ensures { result ≡ state_with state outputs clock }
{
    State {
        state,
        outputs,
        clock,
    }
}

// The best transition met so far.
#[derive(Clone, Copy, Debug, PartialEq, Eq)]
struct Best {
    priority: u8,
    destination: u8,
}

// Whether the arrow's transition can fire: its condition is judged straight from the sheet's bits, and only if its source
// is the active state.
fn can_fire(sheet: &[u8], arrow: Arrow, inputs: u32, now: State, word: u32) -> bool
    requires { arrow.cond < cond_reach }
    ensures { (t : Transition) → Holds sheet.now inputs arrow t → result ≡ can now.state word now.clock t }
{
    if arrow.source != now.state {
        return false;
    }
    let start = Cursor { at: arrow.cond };
    let Ok((facts, _)) = condition::read_condition(sheet, start, inputs, 8, 0, word) else {
        return false;
    };
    facts.value && arrow.wait <= now.clock
}

// The one with the smaller priority number; the earlier where they are equal.
fn took(best: Option<Best>, arrow: Arrow) -> Best
    ensures { result ≡ took_of best arrow }
{
    match best {
        Some(met) if met.priority <= arrow.priority => met,
        _ => Best {
            priority: arrow.priority,
            destination: arrow.destination,
        },
    }
}

// Of the sheet's transitions, the one that fires.
fn choose(sheet: &[u8], decoded: &Decoded, now: State, word: u32) -> Option<Best>
    requires { Good sheet.now decoded.now }
    ensures { (a : Sheet) → Copy sheet.now decoded.now a → Picks result (best now.state word now.clock a.transitions) }
{
    let mut best = None;
    for w in decoded.arrows() {
        let arrow = reader::unpacked(*w);
        if can_fire(sheet, arrow, decoded.header.inputs, now, word) {
            best = Some(took(best, arrow));
        }
    }
    best
}

// The record after one scan.
fn scanned(sheet: &[u8], record: State, inputs: u16, elapsed: u32) -> Result<State, Refusal>
    ensures { answered_of result «record» ≡ scan_sheet sheet.now «record» inputs elapsed }
{
    let mut decoded = Decoded::empty();
    sheet::open_sheet(sheet, &mut decoded)?;
    if decoded.header.states <= u32::from(record.state) {
        return Err(Refusal::NoState(record.state as usize));
    }
    let now = State {
        clock: clock::bring_forward(record.clock, elapsed),
        ..record
    };
    match choose(sheet, &decoded, now, u32::from(inputs)) {
        None => Ok(now),
        Some(best) => {
            let outputs = decoded.rows[best.destination as usize];
            Ok(state_with(best.destination, outputs, 0))
        }
    }
}

// The record of the cold start.
fn cold(sheet: &[u8]) -> Result<State, Refusal>
    ensures { answered_of result zeros ≡ cold_scan sheet.now }
{
    let mut decoded = Decoded::empty();
    sheet::open_sheet(sheet, &mut decoded)?;
    Ok(state_with(0, decoded.rows[0], 0))
}

// One scan of the reference, on any byte string, record, input word and elapsed time, one by one as C hands them.
pub fn scan(sheet: &[u8], record: State, inputs: u16, elapsed: u32) -> Scanned
    ensures { Scans sheet.now «record» inputs elapsed result }
{
    Answered::of(scanned(sheet, record, inputs, elapsed), record)
}

// The reference's cold start, on any byte string.
pub fn cold_scan(sheet: &[u8]) -> Scanned
    ensures { ColdScans sheet.now result }
{
    Answered::of(cold(sheet), state_with(0, 0, 0))
}
