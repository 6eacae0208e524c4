// The numbers answered, with places: document 01's table with the numbers that document 02 adds, and what calls answer.
#![tactic(auto)]

ghost use Rattle.std.specs.Prelude.{◌≡◌};
ghost use Rattle.answer.specs.Checked.{answered_of};
ghost use Rattle.answer.specs.Number.{number, place, number_of, place_of};

// Why a call refuses; the place is held in the case: a bit, a transition, a state, a word, an input, a line, a row, an
// index, or the bytes needed.
// No call gives the numbers from Text on yet.
#[derive(Clone, Copy, Debug, PartialEq, Eq)]
pub enum Refusal {
    Short(usize),
    OneState,
    StateNo(usize),
    InputNo(usize),
    Big(usize),
    Tail(usize),
    Loop(usize),
    Pair(usize),
    Rank(usize),
    NoHome(usize),
    HomeForm(usize),
    Gate(usize),
    Activity(usize),
    Room(usize),
    CodeEnd,
    Word(usize),
    Landing(usize),
    NoState(usize),
    Text(usize),
    Unused(usize),
    Weights(usize),
    Steps,
    IdleWait(usize),
    Foreign(usize),
    Field(usize),
}

// What a check answers: that it accepts, or why it refuses.
pub type Checked = Result<(), Refusal>;

// What a call answers that hands a record on: the verdict, and the record, which is the given one where it refuses. A
// Result would hold none then, and theorem `left` promises it.
#[derive(Clone, Copy, Debug, PartialEq, Eq)]
pub struct Answered<R> {
    pub verdict: Checked,
    pub record: R,
}

impl<R: Copy> Answered<R> {
    // The record that the call comes to; or, where it is refused, the one that it was given.
    pub fn of(comes: Result<R, Refusal>, given: R) -> Answered<R>
        ensures { result ≡ answered_of comes given }
    {
        match comes {
            Ok(record) => Answered {
                verdict: Ok(()),
                record,
            },
            Err(why) => Answered {
                verdict: Err(why),
                record: given,
            },
        }
    }
}

impl Refusal {
    // The paper's number of a refusal.
    pub fn number(self) -> u32
        ensures { result ≡ number self }
    {
        match self {
            Refusal::Short(_) => 1,
            Refusal::OneState => 2,
            Refusal::StateNo(_) => 3,
            Refusal::InputNo(_) => 4,
            Refusal::Big(_) => 5,
            Refusal::Tail(_) => 6,
            Refusal::Loop(_) => 7,
            Refusal::Pair(_) => 8,
            Refusal::Rank(_) => 9,
            Refusal::NoHome(_) => 10,
            Refusal::HomeForm(_) => 11,
            Refusal::Gate(_) => 12,
            Refusal::Activity(_) => 13,
            Refusal::Room(_) => 14,
            Refusal::CodeEnd => 15,
            Refusal::Word(_) => 16,
            Refusal::Landing(_) => 17,
            Refusal::NoState(_) => 18,
            Refusal::Text(_) => 19,
            Refusal::Unused(_) => 20,
            Refusal::Weights(_) => 21,
            Refusal::Steps => 22,
            Refusal::IdleWait(_) => 23,
            Refusal::Foreign(_) => 24,
            Refusal::Field(_) => 25,
        }
    }

    // The paper's place of a refusal.
    pub fn place(self) -> usize
        ensures { result ≡ place self }
    {
        match self {
            Refusal::Short(bit) => bit,
            Refusal::OneState => 0,
            Refusal::StateNo(bit) => bit,
            Refusal::InputNo(bit) => bit,
            Refusal::Big(bit) => bit,
            Refusal::Tail(bit) => bit,
            Refusal::Loop(transition) => transition,
            Refusal::Pair(transition) => transition,
            Refusal::Rank(transition) => transition,
            Refusal::NoHome(state) => state,
            Refusal::HomeForm(transition) => transition,
            Refusal::Gate(transition) => transition,
            Refusal::Activity(state) => state,
            Refusal::Room(bytes) => bytes,
            Refusal::CodeEnd => 0,
            Refusal::Word(word) => word,
            Refusal::Landing(word) => word,
            Refusal::NoState(state) => state,
            Refusal::Text(line) => line,
            Refusal::Unused(input) => input,
            Refusal::Weights(row) => row,
            Refusal::Steps => 0,
            Refusal::IdleWait(transition) => transition,
            Refusal::Foreign(word) => word,
            Refusal::Field(index) => index,
        }
    }
}

// The paper's number: 0 where accepted.
pub fn number_of(c: Checked) -> u32
    ensures { result ≡ number_of c }
{
    match c {
        Ok(()) => 0,
        Err(why) => why.number(),
    }
}

// The paper's place: 0 where accepted.
pub fn place_of(c: Checked) -> usize
    ensures { result ≡ place_of c }
{
    match c {
        Ok(()) => 0,
        Err(why) => why.place(),
    }
}
