// What a refusal says to a person: the paper's number, its name and place, and a sentence on where to look.
#![tactic(auto)]

use answer::Refusal;
use std::fmt;

// What the place of a refusal counts.
#[derive(Clone, Copy, Debug, PartialEq, Eq)]
enum Place {
    Bit,
    Transition,
    State,
    Word,
    Bytes,
    Line,
    Input,
    Row,
    Number,
    Nowhere,
}

impl fmt::Display for Place {
    fn fmt<W: fmt::Write>(&self, f: &mut fmt::Formatter<W>) -> fmt::Result {
        f.write_str(match self {
            Place::Bit => "bit",
            Place::Transition => "transition",
            Place::State => "state",
            Place::Word => "word",
            Place::Bytes => "bytes",
            Place::Line => "line",
            Place::Input => "input",
            Place::Row => "row",
            Place::Number => "number",
            Place::Nowhere => "nowhere",
        })
    }
}

fn place_of(why: Refusal) -> Place {
    match why {
        Refusal::Short(_)
        | Refusal::OneState
        | Refusal::StateNo(_)
        | Refusal::InputNo(_)
        | Refusal::Big(_)
        | Refusal::Tail(_) => Place::Bit,
        Refusal::Loop(_)
        | Refusal::Pair(_)
        | Refusal::Rank(_)
        | Refusal::HomeForm(_)
        | Refusal::Gate(_)
        | Refusal::IdleWait(_) => Place::Transition,
        Refusal::NoHome(_) | Refusal::Activity(_) | Refusal::NoState(_) => Place::State,
        Refusal::CodeEnd | Refusal::Word(_) | Refusal::Landing(_) | Refusal::Foreign(_) => {
            Place::Word
        }
        Refusal::Room(_) => Place::Bytes,
        Refusal::Text(_) => Place::Line,
        Refusal::Unused(_) => Place::Input,
        Refusal::Weights(_) => Place::Row,
        Refusal::Field(_) => Place::Number,
        Refusal::Steps => Place::Nowhere,
    }
}

fn name_of(why: Refusal) -> &'static str {
    match why {
        Refusal::Short(_) => "SHORT",
        Refusal::OneState => "ONE-STATE",
        Refusal::StateNo(_) => "STATE-NO",
        Refusal::InputNo(_) => "INPUT-NO",
        Refusal::Big(_) => "BIG",
        Refusal::Tail(_) => "TAIL",
        Refusal::Loop(_) => "LOOP",
        Refusal::Pair(_) => "PAIR",
        Refusal::Rank(_) => "RANK",
        Refusal::NoHome(_) => "NO-HOME",
        Refusal::HomeForm(_) => "HOME-FORM",
        Refusal::Gate(_) => "GATE",
        Refusal::Activity(_) => "ACTIVITY",
        Refusal::Room(_) => "ROOM",
        Refusal::CodeEnd => "CODE-END",
        Refusal::Word(_) => "WORD",
        Refusal::Landing(_) => "LANDING",
        Refusal::NoState(_) => "NO-STATE",
        Refusal::Text(_) => "TEXT",
        Refusal::Unused(_) => "UNUSED",
        Refusal::Weights(_) => "WEIGHTS",
        Refusal::Steps => "STEPS",
        Refusal::IdleWait(_) => "IDLE-WAIT",
        Refusal::Foreign(_) => "FOREIGN",
        Refusal::Field(_) => "FIELD",
    }
}

// What is wrong. No call gives the last seven yet.
fn fault_of(why: Refusal) -> &'static str {
    match why {
        Refusal::Short(_) => "The sheet ends before the field that begins here is whole",
        Refusal::OneState => "The header gives one state, and a sheet has at least two",
        Refusal::StateNo(_) => "A transition names a state that the sheet does not have",
        Refusal::InputNo(_) => "A condition names an input that the sheet does not have",
        Refusal::Big(_) => "From here on a condition has more than 31 nodes or is more than 8 deep",
        Refusal::Tail(_) =>
            "Only zero bits up to the byte may follow the last condition, and more follows here",
        Refusal::Loop(_) => "Its source and its destination are the same state",
        Refusal::Pair(_) => "An earlier transition has the same source and destination",
        Refusal::Rank(_) => "An earlier transition with the same source has the same priority",
        Refusal::NoHome(_) => "It has no transition to state 0, and every state but 0 needs one",
        Refusal::HomeForm(_) =>
            "It leads to state 0, so it needs priority 0, wait 0 and the condition NOT input 0",
        Refusal::Gate(_) =>
            "It leaves state 0, so its condition must be input 0, or an AND whose first operand is input 0",
        Refusal::Activity(_) => "Output 0 must be true in state 0 and false in every other state",
        Refusal::Room(_) => "The code needs more bytes than the buffer has",
        Refusal::CodeEnd =>
            "Code has 4 to 32768 bytes, a multiple of 4, and ends with the word END",
        Refusal::Word(_) =>
            "The word is unknown, or its operand or its parentheses are not allowed",
        Refusal::Landing(_) => "A parenthesis is open just before the word that this jump goes to",
        Refusal::NoState(_) => "The record names a state that the sheet does not have",
        Refusal::Text(_) => "The line is not one that a listing has",
        Refusal::Unused(_) => "No condition names it",
        Refusal::Weights(_) =>
            "Its weights do not total 256, or it has one where the sheet has no transition",
        Refusal::Steps => "At most 6 steps may be asked for",
        Refusal::IdleWait(_) => "It leaves state 0 after a wait, and there is no new code for that",
        Refusal::Foreign(_) => "The code differs here from the sheet's own",
        Refusal::Field(_) =>
            "The number does not fit its field, the list ends too early, or numbers are left over",
    }
}

// Both lines of a refusal.
#[derive(Clone, Copy)]
pub struct Explained(pub Refusal);

impl fmt::Display for Explained {
    fn fmt<W: fmt::Write>(&self, f: &mut fmt::Formatter<W>) -> fmt::Result {
        let why = self.0;
        let number = why.number();
        let at = why.place();
        let place = place_of(why);
        write!(f, "refused: {number} {}", name_of(why))?;
        match place {
            Place::Bytes => writeln!(f, ", {at} bytes needed")?,
            Place::Nowhere => writeln!(f)?,
            _ => writeln!(f, " at {place} {at}")?,
        }
        f.write_str(fault_of(why))?;
        match place {
            Place::Bit => {
                let (byte, bit) = (at / 8, at % 8);
                writeln!(
                    f,
                    ": look at byte {byte}, bit {bit} (both from 0, the top bit first)."
                )
            }
            Place::Bytes | Place::Nowhere => writeln!(f, "."),
            _ => writeln!(f, ": look at {place} {at} (the first is 0)."),
        }
    }
}
