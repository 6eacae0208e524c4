// Words and bytes: what a word does and its operand, read from code; and a word written into a buffer.
#![tactic(auto)]

ghost use Rattle.std.specs.Prelude.{◌≡◌, [], ◌∷◌, ◌+◌, ◌*◌, ◌/◌, ◌%◌, ◌≤◌, ◌<◌, length, get_or};
ghost use Rattle.words.specs.Word.{Word, word_no, word_at};
ghost use Rattle.words.specs.Op.{op_no, Decodes};
ghost use Rattle.words.specs.inside.Wrote.{Wrote};

// What a word does, in the order of the paper's code bytes.
#[derive(Clone, Copy, Debug, PartialEq, Eq)]
pub enum Op {
    End,
    Lds,
    Ldi,
    Not,
    And,
    Or,
    Close,
    Andt,
    R,
    S,
    Ra,
    Sa,
    Jmpc,
    Jmp,
    Tres,
}

// A code byte that is none of theirs.
#[derive(Clone, Copy, Debug, PartialEq, Eq)]
pub struct UnknownCode(pub u8);

impl From<Op> for u8 {
    ghost from_gives = { λ op byte. byte ≡ op_no op };

    fn from(op: Op) -> u8 {
        op as u8
    }
}

impl TryFrom<u8> for Op {
    type Error = UnknownCode;

    ghost try_from_gives = { Decodes };

    fn try_from(byte: u8) -> Result<Op, UnknownCode> {
        match byte {
            0 => Ok(Op::End),
            1 => Ok(Op::Lds),
            2 => Ok(Op::Ldi),
            3 => Ok(Op::Not),
            4 => Ok(Op::And),
            5 => Ok(Op::Or),
            6 => Ok(Op::Close),
            7 => Ok(Op::Andt),
            8 => Ok(Op::R),
            9 => Ok(Op::S),
            10 => Ok(Op::Ra),
            11 => Ok(Op::Sa),
            12 => Ok(Op::Jmpc),
            13 => Ok(Op::Jmp),
            14 => Ok(Op::Tres),
            _ => Err(UnknownCode(byte)),
        }
    }
}

// The code byte of word `at`. It and the two below require that the word is there: a type for such a place would have
// to hold the code's loan too, and is no plainer.
pub fn code_byte(code: &[u8], at: usize) -> u8
    requires { at * 4 + 4 ≤ length code.now }
    ensures { (result ≡ word_at code.now at / 16777216) × (result ≡ get_or code.now (at * 4) 0) }
{
    code[at * 4]
}

// What word `at` does.
pub fn op_at(code: &[u8], at: usize) -> Result<Op, UnknownCode>
    requires { at * 4 + 4 ≤ length code.now }
    ensures of_word { Decodes (word_at code.now at / 16777216) result }
    ensures of_byte { Decodes (get_or code.now (at * 4) 0) result }
{
    Op::try_from(code_byte(code, at))
}

// The operand of word `at`.
pub fn operand(code: &[u8], at: usize) -> usize
    requires { at * 4 + 4 ≤ length code.now }
    ensures { (result ≡ word_at code.now at % 16777216) × (result < 16777216) }
{
    let b = at * 4;
    u32::from_be_bytes([0, code[b + 1], code[b + 2], code[b + 3]]) as usize
}

// A word's four bytes, most significant first; the byte after them. The code byte is a number and no `Op`, which would ask
// more of callers.
pub fn put_word(code: &mut [u8], at: usize, op: u8, operand: u32) -> usize
    requires { (at + 4 ≤ length code.old) × (operand < 16777216) }
    ensures { (w : Word) → word_no w ≡ op * 16777216 + operand → Wrote code.old at (w ∷ []) code.new result }
{
    let [_, high, middle, low] = operand.to_be_bytes();
    code[at] = op;
    code[at + 1] = high;
    code[at + 2] = middle;
    code[at + 3] = low;
    at + 4
}
