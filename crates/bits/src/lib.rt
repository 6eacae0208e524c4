// Bits: a field of a bit-packed byte string, most significant bit first; and a bit of a word, bit i having weight 2^i.
#![tactic(auto)]

ghost use Rattle.std.specs.Prelude.{◌≡◌, true, false, ◌+◌, ◌*◌, ◌-◌, ◌/◌, ◌%◌, ◌^◌, ◌≤◌, ◌<◌, length};
ghost use Rattle.bits.specs.Field.{reach, num_at, field_at};
ghost use Rattle.bits.specs.Word.{get_bit, put_bit};

use answer::Refusal;

// The next bit to be read. The bytes stand beside it: with them inside, each contract would have to say that they stay.
#[derive(Clone, Copy, Debug, PartialEq, Eq)]
pub struct Cursor {
    pub at: usize,
}

// What reading answers: what was read with the cursor after it, or the refusal met first.
pub type Read<T> = Result<(T, Cursor), Refusal>;

// The bytes before `stop` that the field at `at` is in. As many of the last ones are taken as a field of this width
// fills at least, and its first byte, which may be one of them, is put above them: what is above a field is cut off.
// Byte by byte: a fold over them would have to tell the first, and takes twice as long a field (measured).
fn gathered(s: &[u8], at: usize, width: usize, stop: usize) -> u64
    requires { (at < reach) × (1 ≤ width) × (width ≤ 24) × (stop ≡ (at + width + 7) / 8) × (stop ≤ length s.now) }
    ensures { result / 2 ^ (stop * 8 - (at + width)) % 2 ^ width ≡ num_at s.now at width }
{
    let first = u64::from(s[at / 8]);
    let last = u64::from(s[stop - 1]);
    if width <= 9 {
        return first * 256 + last;
    }
    let second = u64::from(s[stop - 2]);
    if width <= 17 {
        return (first * 256 + second) * 256 + last;
    }
    let third = u64::from(s[stop - 3]);
    ((first * 256 + third) * 256 + second) * 256 + last
}

// The number that the `width` bits from `at` on are, where they are there: cut out of the bytes that they are in.
// The place stands beside the bytes because it is a bit, and no slice begins at a bit.
pub fn number(s: &[u8], at: usize, width: usize) -> u32
    requires { (at < reach) × (1 ≤ width) × (width ≤ 24) × (at + width ≤ length s.now * 8) }
    ensures { result ≡ num_at s.now at width }
{
    let end = at + width;
    let stop = (end + 7) / 8;
    let all = gathered(s, at, width, stop);
    let spare = stop * 8 - end;
    ((all >> spare) % (1 << width)) as u32
}

// The field of `width` bits from the cursor on with the cursor after it, where it is there.
// The width is a plain number: each caller writes out the paper's, and a type for it would be no plainer.
pub fn field(s: &[u8], c: Cursor, width: usize) -> Option<(u32, Cursor)>
    requires { (c.at < reach) × (1 ≤ width) × (width ≤ 24) }
    ensures { result ≡ field_at s.now c.at width }
{
    let at = c.at;
    let end = at + width;
    if s.len() < (end + 7) / 8 {
        return None;
    }
    Some((number(s, at, width), Cursor { at: end }))
}

// Whether bit i of the word is 1.
pub fn get_bit(w: u32, i: u32) -> bool
    requires { i < 32 }
    ensures { result ≡ get_bit w i }
{
    (w >> i) % 2 == 1
}

// The word with bit i made `bit`.
pub fn put_bit(w: u32, i: u32, bit: bool) -> u32
    requires { i < 32 }
    ensures { result ≡ put_bit w i bit }
{
    if get_bit(w, i) == bit {
        w
    } else if bit {
        w + (1 << i)
    } else {
        w - (1 << i)
    }
}

// The word with bit i made 1: what most callers ask for, under the name that DECISIONS gives it.
pub fn set_bit(w: u32, i: u32) -> u32
    requires { i < 32 }
    ensures { result ≡ put_bit w i true }
{
    put_bit(w, i, true)
}

// The word with bit i made 0.
pub fn clear_bit(w: u32, i: u32) -> u32
    requires { i < 32 }
    ensures { result ≡ put_bit w i false }
{
    put_bit(w, i, false)
}
