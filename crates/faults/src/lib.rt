// The check of code: 15 its end, 16 a word at fault, 17 a jump that lands inside a parenthesis.
#![tactic(auto)]

ghost use Rattle.std.specs.Prelude.{◌≡◌, true, false, ◌&&◌, ◌||◌, map, ℕ, pred, ◌+◌, ◌*◌, ◌≤◌, ◌<◌, length, replicate, eqb, ltb};
ghost use Rattle.answer.specs.declared.Refusal.TheVariants.{Landing};
ghost use Rattle.answer.specs.Lowest.{refuse_at};
ghost use Rattle.words.specs.Op.{op_no};
ghost use Rattle.words.specs.Word.{known, decode, words, word_at};
ghost use Rattle.faults.specs.Check.{end_fault, opens, faulty, unknown, first_fault, depth_at, lands_open, first_landing, ChecksCode};
ghost use Rattle.faults.specs.inside.Marks.{marked, noted, PassTells, AllMarked};

use answer::{Checked, Refusal};
use words::Op;

// A mark for each word that code may have.
#[derive(Drop)]
struct Marks {
    bits: [u32; 256],
    ghost full: { length bits ≡ 256 },
}

impl Marks {
    fn none() -> Marks
        ensures { result.bits ≡ replicate 256 0 }
    {
        Marks { bits: [0; 256] }
    }

    // Whether word k is marked.
    #[tactic(auto, unfolding(crate::specs::inside::Marks::marked))]
    fn has(&self, k: usize) -> bool
        requires { k < 8192 }
        ensures { result ≡ marked self.now.bits k }
    {
        let bit = k as u32;
        bits::get_bit(self.bits[(bit / 32) as usize], bit % 32)
    }

    // Marks word k, which may be marked already.
    #[tactic(auto, unfolding(crate::specs::inside::Marks::noted))]
    fn mark(&mut self, k: usize)
        requires { k < 8192 }
        ensures { self.new.bits ≡ noted true self.old.bits k }
    {
        let i = k / 32;
        self.bits[i] = bits::set_bit(self.bits[i], (k % 32) as u32);
    }
}

// 15: the end is judged by one byte, so that the rest of the last word is left to 16.
#[tactic(auto, unfolding(crate::specs::Check::end_fault))]
fn end_fault(code: &[u8]) -> bool
    ensures { result ≡ end_fault code.now }
{
    let len = code.len();
    len == 0 || 32768 < len || 0 < len % 4 || 0 < code[len - 4]
}

// 16: whether word `at` of n is at fault, with d parentheses open before it.
fn faulty(n: usize, at: usize, d: usize, op: Op, arg: usize) -> bool
    requires { arg < 16777216 }
    ensures { let w = op_no op * 16777216 + arg in result ≡ (unknown w || faulty n at d (decode w)) }
{
    match op {
        Op::End => (0 < arg) | (0 < d),
        Op::Lds => (31 < arg) | (0 < d),
        Op::Not | Op::Tres => 0 < arg,
        Op::And | Op::Or => (0 < arg) | (8 <= d),
        Op::Close => (0 < arg) | (d == 0),
        Op::Andt => false,
        Op::R | Op::S => 31 < arg,
        Op::Ldi | Op::Ra | Op::Sa => 15 < arg,
        Op::Jmpc | Op::Jmp => !((at < arg) & (arg < n)) | (0 < d),
    }
}

// The parentheses open after a word.
#[tactic(auto, unfolding(crate::specs::Check::opens, words::specs::Word::known))]
fn opened(op: Op, d: usize) -> usize
    requires { d < 65536 }
    ensures { (a : ℕ) → result ≡ opens (known (op_no op) a) d }
{
    match op {
        Op::And | Op::Or => d + 1,
        Op::Close => d.saturating_sub(1),
        _ => d,
    }
}

// 16; or else whether there is a 17. The targets of jumps are marked: jumps go forward, so that at each word all jumps to
// it have been met. That the code is no longer than `end_fault` lets pass is required here and by the passes below: a type
// that says it would be taken apart at each use of the code. Not inlined, so that its marks are off the stack when
// `check_landings` has its own.
#[inline(never)]
fn one_pass(code: &[u8]) -> Result<bool, Refusal>
    requires { length code.now ≤ 32768 }
    ensures { PassTells code.now result }
{
    let n = code.len() / 4;
    let mut targets = Marks::none();
    let mut landing = false;
    let mut d = 0;
    for at in 0..n {
        if 0 < d && targets.has(at) {
            landing = true;
        }
        let Ok(op) = words::op_at(code, at) else {
            return Err(Refusal::Word(at));
        };
        let arg = words::operand(code, at);
        if faulty(n, at, d, op, arg) {
            return Err(Refusal::Word(at));
        }
        if let Op::Jmpc | Op::Jmp = op {
            targets.mark(arg);
        }
        d = opened(op, d);
    }
    Ok(landing)
}

// Marks each word before which a parenthesis is open.
fn mark_open(code: &[u8], marks: &mut Marks)
    requires code_few { length code.now ≤ 32768 }
    requires none { marks.old.bits ≡ replicate 256 0 }
    ensures { let ws = words code.now in
        (k : ℕ) → k < length ws → marked marks.new.bits k ≡ ltb 0 (depth_at 0 (map decode ws) k) }
{
    let mut d = 0;
    for at in 0..code.len() / 4 {
        if 0 < d {
            marks.mark(at);
        }
        if let Ok(op) = words::op_at(code, at) {
            d = opened(op, d);
        }
    }
}

// Whether word `at` is a jump to a word before which a parenthesis is open.
fn lands_open(code: &[u8], marks: &Marks, at: usize) -> bool
    requires at_in_bounds { at < length (words code.now) }
    requires all_marked { AllMarked code.now marks.now.bits }
    ensures { result ≡ lands_open (map decode (words code.now)) (decode (word_at code.now at)) }
{
    let Ok(op) = words::op_at(code, at) else {
        return false;
    };
    match op {
        Op::Jmpc | Op::Jmp => marks.has(words::operand(code, at)),
        _ => false,
    }
}

// 17, in two passes more: the first jump to such a word. Apart, so that its marks are on the stack of refused code alone.
#[cold]
#[inline(never)]
fn check_landings(code: &[u8]) -> Checked
    requires code_few { length code.now ≤ 32768 }
    requires code_sound { first_fault (length (words code.now)) 0 0 (words code.now) ≡ None }
    ensures { let is = map decode (words code.now) in result ≡ refuse_at Landing (first_landing is 0 is) (Ok tt) }
{
    let mut marks = Marks::none();
    mark_open(code, &mut marks);
    for at in 0..code.len() / 4 {
        if lands_open(code, &marks, at) {
            return Err(Refusal::Landing(at));
        }
    }
    Ok(())
}

// Whether code may be run: 15, then 16, then 17, each at its lowest place. The words are passed over again only if there
// is a 17.
pub fn check_code(code: &[u8]) -> Checked
    ensures { ChecksCode code.now result }
{
    if end_fault(code) {
        return Err(Refusal::CodeEnd);
    }
    if one_pass(code)? {
        return check_landings(code);
    }
    Ok(())
}
