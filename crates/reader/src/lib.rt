// Reading a sheet: header, rows, transitions, and nothing more. Numbers 1 to 6, in reading order; it is decoded once.
#![tactic(auto)]

ghost use Rattle.std.specs.Prelude.{◌≡◌, ◌+◌, ◌≤◌, ◌<◌, length, take};
ghost use Rattle.bits.specs.Field.{reach};
ghost use Rattle.bits.specs.Word.{bits_of, word_of};
ghost use Rattle.bits.specs.Read.{upto};
ghost use Rattle.bits.specs.inside.Told.{told};
ghost use Rattle.condition.specs.inside.Reach.{cond_reach};
ghost use Rattle.reader.specs.Reading.{read_header, row_at, transition_at, ends_at, read_sheet};
ghost use Rattle.reader.specs.inside.Packing.{pack, unpack, Digits, arrow_reach};
ghost use Rattle.reader.specs.inside.Decoding.{HoldsRows, pair_of, names_at, ArrowIs, rest_at, transitions_at, HoldsArrows, Answers};

use answer::Refusal;
use bits::{Cursor, Read};
use condition::{Facts, Form};

// The header's four numbers.
#[derive(Clone, Copy, Debug, PartialEq, Eq)]
pub struct Header {
    pub states: u32,
    pub inputs: u32,
    pub outputs: u32,
    pub transitions: u32,
}

// A transition; `cond` is the first bit of its condition, `form` and `words` are facts of it.
#[derive(Clone, Copy, Debug, PartialEq, Eq)]
pub struct Arrow {
    pub source: u8,
    pub destination: u8,
    pub priority: u8,
    pub form: Form,
    pub words: u32,
    pub wait: u32,
    pub cond: usize,
}

// A sheet decoded once, in a place that the caller lends: its header, its states' outputs as words, its arrows packed.
// That the header's counts fit stands at the methods: beside a ghost field the arrays could not be lent. The sheet's bytes
// are not in it, since it is lent before they are read.
#[derive(Clone, Copy)]
pub struct Decoded {
    pub header: Header,
    pub rows: [u16; 32],
    pub arrows: [u64; 128],
}

impl Decoded {
    // Nothing is decoded yet.
    pub fn empty() -> Decoded
        ensures { (result.header.states ≡ 0) × (result.header.transitions ≡ 0) }
    {
        let header = Header {
            states: 0,
            inputs: 0,
            outputs: 0,
            transitions: 0,
        };
        Decoded {
            header,
            rows: [0; 32],
            arrows: [0; 128],
        }
    }

    // The outputs of the sheet's states.
    pub fn rows(&self) -> &[u16]
        requires { self.now.header.states ≤ 32 }
        ensures { result.now ≡ take self.now.header.states self.now.rows }
    {
        &self.rows[..self.header.states as usize]
    }

    // The sheet's arrows.
    pub fn arrows(&self) -> &[u64]
        requires { self.now.header.transitions ≤ 128 }
        ensures { result.now ≡ take self.now.header.transitions self.now.arrows }
    {
        &self.arrows[..self.header.transitions as usize]
    }
}

fn read_header(s: &[u8]) -> Read<Header>
    ensures { result ≡ told (λ h. h) (read_header s.now) }
{
    let start = Cursor { at: 0 };
    let Some((n, c1)) = bits::field(s, start, 5) else {
        return Err(Refusal::Short(0));
    };
    if n == 0 {
        return Err(Refusal::OneState);
    }
    let Some((k, c2)) = bits::field(s, c1, 4) else {
        return Err(Refusal::Short(c1.at));
    };
    let Some((l, c3)) = bits::field(s, c2, 4) else {
        return Err(Refusal::Short(c2.at));
    };
    let Some((m, c4)) = bits::field(s, c3, 7) else {
        return Err(Refusal::Short(c3.at));
    };
    let header = Header {
        states: n + 1,
        inputs: k + 1,
        outputs: l + 1,
        transitions: m + 1,
    };
    Ok((header, c4))
}

// A row's field as an output word: the field has output 0 first, the word gives it weight 1. The width stays the
// header's own number, here and in the two below: a type for 1 to 16 would be made of it and taken apart again.
fn output_word(v: u32, width: usize) -> u16
    requires { width ≤ 16 }
    ensures { result ≡ word_of (bits_of width v) }
{
    let mut word: u32 = 0;
    for i in 0..width {
        word = word * 2 + (v >> i) % 2;
    }
    word as u16
}

fn read_row(s: &[u8], c: Cursor, width: usize) -> Read<u16>
    requires { (c.at < reach) × (1 ≤ width) × (width ≤ 16) }
    ensures { result ≡ told word_of (row_at s.now width c.at) }
{
    let Some((v, next)) = bits::field(s, c, width) else {
        return Err(Refusal::Short(c.at));
    };
    Ok((output_word(v, width), next))
}

// As many rows as there is room for.
fn read_rows(s: &[u8], c: Cursor, width: usize, rows: &mut [u16]) -> Result<Cursor, Refusal>
    requires { (c.at ≤ 100) × (length rows.old ≤ 32) × (1 ≤ width) × (width ≤ 16) }
    ensures { HoldsRows (upto (row_at s.now width) c.at (length rows.old)) result rows.new }
{
    let mut here = c;
    for row in rows.iter_mut() {
        let (word, next) = read_row(s, here, width)?;
        *row = word;
        here = next;
    }
    Ok(here)
}

// The source and the destination of a transition.
fn read_names(s: &[u8], c: Cursor, n: u32) -> Read<(u8, u8)>
    requires { c.at < cond_reach }
    ensures { result ≡ told pair_of (names_at s.now n c.at) }
{
    let Some((source, c1)) = bits::field(s, c, 5) else {
        return Err(Refusal::Short(c.at));
    };
    if n <= source {
        return Err(Refusal::StateNo(c.at));
    }
    let Some((destination, c2)) = bits::field(s, c1, 5) else {
        return Err(Refusal::Short(c1.at));
    };
    if n <= destination {
        return Err(Refusal::StateNo(c1.at));
    }
    Ok(((source as u8, destination as u8), c2))
}

// An arrow in one number: source and priority are its highest digits, so that they order it. No bit of the 64 is left.
// Packed, 128 of them take 1 KB of a scan's stack and not 3. Functions and no `From`: packing requires `Digits`, and the
// number is an arrow by this packing alone.
fn packed(t: Arrow) -> u64
    requires { Digits t }
    ensures { result ≡ pack t }
{
    let key = (t.source as u64) * 128 + (t.priority as u64);
    let form = (key * 32 + (t.destination as u64)) * 4 + (t.form as u64);
    let cond = (form * 64 + (t.words as u64)) * 32768 + (t.cond as u64);
    cond * 16777216 + (t.wait as u64)
}

// The arrow that the number holds.
pub fn unpacked(w: u64) -> Arrow
    ensures { result ≡ unpack w }
{
    let cond = w / 16777216;
    let form = cond / 32768 / 64;
    let key = form / 4 / 32;
    Arrow {
        source: (key / 128 % 32) as u8,
        destination: (form / 4 % 32) as u8,
        priority: (key % 128) as u8,
        form: match form % 4 {
            0 => Form::Other,
            1 => Form::On,
            2 => Form::Off,
            _ => Form::Gated,
        },
        words: (cond / 32768 % 64) as u32,
        wait: (w % 16777216) as u32,
        cond: (cond % 32768) as usize,
    }
}

// The rest of a transition behind its two states: priority, wait and condition. The answer is the condition's, which
// document 01 has opened by `let .. else`; so the arrow that is lent keeps the whole.
fn read_rest(
    s: &[u8],
    c: Cursor,
    k: u32,
    source: u8,
    destination: u8,
    arrow: &mut u64,
) -> Read<Facts>
    requires { (c.at < arrow_reach + 10) × (source < 32) × (destination < 32) }
    ensures { ArrowIs s.now k (rest_at s.now k source destination c.at) result arrow.new }
{
    let Some((priority, c1)) = bits::field(s, c, 7) else {
        return Err(Refusal::Short(c.at));
    };
    let Some((wait, c2)) = bits::field(s, c1, 24) else {
        return Err(Refusal::Short(c1.at));
    };
    let read = condition::read_condition(s, c2, k, 8, 0, 0);
    let Ok((facts, _)) = read else {
        return read;
    };
    *arrow = packed(Arrow {
        source,
        destination,
        priority: priority as u8,
        form: facts.form,
        words: facts.words,
        wait,
        cond: c2.at,
    });
    read
}

// A transition of the sheet, which the arrow keeps.
fn read_transition(s: &[u8], c: Cursor, header: Header, arrow: &mut u64) -> Read<Facts>
    requires { c.at < arrow_reach }
    ensures { ArrowIs s.now header.inputs (transition_at s.now header.states header.inputs c.at) result arrow.new }
{
    let ((source, destination), next) = read_names(s, c, header.states)?;
    read_rest(s, next, header.inputs, source, destination, arrow)
}

// As many transitions of the sheet as there is room for.
fn read_transitions(
    s: &[u8],
    c: Cursor,
    header: Header,
    arrows: &mut [u64],
) -> Result<Cursor, Refusal>
    requires { (c.at ≤ 1000) × (length arrows.old ≤ 128) }
    ensures { HoldsArrows s.now header.inputs (transitions_at s.now header c.at (length arrows.old)) result arrows.new }
{
    let mut here = c;
    for arrow in arrows.iter_mut() {
        let (_, next) = read_transition(s, here, header, arrow)?;
        here = next;
    }
    Ok(here)
}

// Whether nothing but zero bits up to the byte follows.
fn ends_here(s: &[u8], c: Cursor) -> bool
    requires { c.at < reach }
    ensures { result ≡ ends_at s.now c.at }
{
    let at = c.at;
    let stop = (at + 7) / 8;
    if s.len() != stop {
        return false;
    }
    let spare = stop * 8 - at;
    if spare == 0 {
        return true;
    }
    let Some((v, _)) = bits::field(s, c, spare) else {
        return false;
    };
    v == 0
}

// The sheet that the bytes are, and the cursor after its last condition; or the first refusal met.
pub fn read_sheet(s: &[u8], decoded: &mut Decoded) -> Result<Cursor, Refusal>
    ensures { Answers s.now (read_sheet s.now) result decoded.new }
{
    let (header, c1) = read_header(s)?;
    let rows = &mut decoded.rows[..header.states as usize];
    let c2 = read_rows(s, c1, header.outputs as usize, rows)?;
    let arrows = &mut decoded.arrows[..header.transitions as usize];
    let c3 = read_transitions(s, c2, header, arrows)?;
    if ends_here(s, c3) {
        // Kept last, so that whoever goes on has at hand how few arrows there are: the compiler then compares eight of
        // their keys at a time.
        decoded.header = header;
        return Ok(c3);
    }
    Err(Refusal::Tail(c3.at))
}
