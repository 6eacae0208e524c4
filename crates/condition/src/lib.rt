// A condition: a prefix expression of two-bit tags, read from the bits of a sheet. Reading makes no tree; it tells what
// later work asks for.
#![tactic(auto)]

ghost use Rattle.std.specs.Prelude.{◌≡◌, ◌+◌, ◌*◌, ◌≤◌, ◌<◌};
ghost use Rattle.bits.specs.Field.{reach};
ghost use Rattle.condition.specs.Reading.{cond_at, input_at, operands_at};
ghost use Rattle.condition.specs.inside.Reach.{cond_reach};
ghost use Rattle.bits.specs.inside.Told.{told};
ghost use Rattle.condition.specs.inside.Facts.{facts_of, neg_facts, join_facts, tag_of};

use answer::Refusal;
use bits::{Cursor, Read};

// What HOME-FORM and GATE ask for: input 0; NOT input 0; an AND whose first operand is input 0; or any other form.
#[derive(Clone, Copy, Debug, PartialEq, Eq)]
pub enum Form {
    Other,
    On,
    Off,
    Gated,
}

// The nodes of a condition and of what was read before it; the condition's value at an input word, its form and its
// words of code.
#[derive(Clone, Copy, Debug, PartialEq, Eq)]
pub struct Facts {
    pub nodes: u32,
    pub value: bool,
    pub form: Form,
    pub words: u32,
}

// The operator of a node that has operands.
#[derive(Clone, Copy, Debug, PartialEq, Eq)]
enum Operator {
    Not,
    And,
    Or,
}

// The facts of NOT, from those of its operand.
fn negated(f: Facts) -> Facts
    requires { f.words ≤ 1000 }
    ensures { result ≡ neg_facts f }
{
    let form = match f.form {
        Form::On => Form::Off,
        _ => Form::Other,
    };
    Facts {
        value: !f.value,
        form,
        words: f.words + 1,
        ..f
    }
}

// The facts of AND or OR, from those of its operands.
fn joined(and: bool, f: Facts, g: Facts) -> Facts
    requires { (f.words ≤ 1000) × (g.words ≤ 1000) }
    ensures { result ≡ join_facts and f g }
{
    let (one, two) = (f.value, g.value);
    let form = match f.form {
        Form::On if and => Form::Gated,
        _ => Form::Other,
    };
    Facts {
        nodes: g.nodes,
        value: if and { one & two } else { one | two },
        form,
        words: f.words + g.words + 2,
    }
}

// The number of an input node, whose tag is read.
fn read_input(s: &[u8], c: Cursor, inputs: u32, seen: u32, word: u32) -> Read<Facts>
    requires { (c.at < reach) × (seen < 31) }
    ensures { result ≡ told (facts_of word) (input_at s.now inputs seen c.at) }
{
    let Some((i, next)) = bits::field(s, c, 4) else {
        return Err(Refusal::Short(c.at));
    };
    if inputs <= i {
        return Err(Refusal::InputNo(c.at));
    }
    let facts = Facts {
        nodes: seen + 1,
        value: bits::get_bit(word, i),
        form: if i == 0 { Form::On } else { Form::Other },
        words: 1,
    };
    Ok((facts, next))
}

// The condition at the cursor, at most `room` deep, of a sheet with `inputs` inputs, with `seen` nodes before it.
// The cycle hands its parts on one by one, as document 01 names them: with a struct of them reading a condition takes a
// tenth longer (measured).
#[cycle(read_condition_read_operands)]
pub fn read_condition(
    s: &[u8],
    c: Cursor,
    inputs: u32,
    room: u32,
    seen: u32,
    word: u32,
) -> Read<Facts>
    requires { (c.at < cond_reach + 6 * seen) × (seen ≤ 31) }
    ensures { result ≡ told (facts_of word) (cond_at room s.now inputs seen c.at) }
{
    let Some((tag, next)) = bits::field(s, c, 2) else {
        return Err(Refusal::Short(c.at));
    };
    if room == 0 {
        return Err(Refusal::Big(c.at));
    }
    if 31 <= seen {
        return Err(Refusal::Big(c.at));
    }
    // The paper's two bits.
    let operator = match tag {
        0 => return read_input(s, next, inputs, seen, word),
        1 => Operator::Not,
        2 => Operator::And,
        _ => Operator::Or,
    };
    read_operands(s, next, inputs, room - 1, seen + 1, operator, word)
}

// The operands of a node with this operator: one for NOT, else two. The bits left fall with each call of the cycle.
#[cycle(read_condition_read_operands)]
fn read_operands(
    s: &[u8],
    c: Cursor,
    inputs: u32,
    room: u32,
    seen: u32,
    operator: Operator,
    word: u32,
) -> Read<Facts>
    requires { (c.at < cond_reach + 6 * seen) × (seen ≤ 31) }
    ensures { result ≡ told (facts_of word) (operands_at (cond_at room s.now inputs) (tag_of operator) seen c.at) }
{
    let (f, next) = read_condition(s, c, inputs, room, seen, word)?;
    if operator == Operator::Not {
        return Ok((negated(f), next));
    }
    let (g, last) = read_condition(s, next, inputs, room, f.nodes, word)?;
    Ok((joined(operator == Operator::And, f, g), last))
}
