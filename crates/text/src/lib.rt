// What is shown in ways that the library has no form for: a name that came from outside, the bits of a word, a number with
// its noun.
#![tactic(auto)]

ghost use Rattle.std.specs.Prelude.{◌≡◌, ◌++◌, map, OnOk, Some};
ghost use Rattle.text.specs.Text.{shown, bits_text, count_text};

use std::alloc::AllocError;
use std::fmt;

// Adds a name that came from outside, as bytes, since it need not be text. A byte that a terminal takes for a command is
// shown as a question mark.
pub fn push_name(out: &mut Vec<u8>, name: &[u8]) -> Result<(), AllocError>
    ensures { OnOk result (out.new.items ≡ out.old.items ++ map shown name.now) }
{
    out.extend(
        name.iter()
            .map(|b| if b.is_ascii_control() { b'?' } else { *b }),
    )
}

// The first bits of a word, bit 0 first, as the sheet has inputs and outputs; in a width they stand at its left.
#[derive(Clone, Copy, Debug, PartialEq, Eq)]
pub struct Bits {
    pub word: u32,
    pub count: usize,
}

impl fmt::Display for Bits {
    ghost output = { λ b. Some (bits_text b.word b.count) };

    fn fmt<W: fmt::Write>(&self, f: &mut fmt::Formatter<W>) -> fmt::Result {
        let mut rest = self.word;
        for _ in 0..self.count / 4 {
            f.write_str(four(rest))?;
            rest /= 16;
        }
        for _ in 0..self.count % 4 {
            f.write_str(if rest % 2 == 1 { "1" } else { "0" })?;
            rest /= 2;
        }
        let blanks = f.width().unwrap_or(0).saturating_sub(self.count);
        if 0 < blanks {
            return put_blanks(f, blanks);
        }
        Ok(())
    }
}

// Blanks, by fours too: a `write!` with a width costs more than a few of them.
fn put_blanks<W: fmt::Write>(f: &mut fmt::Formatter<W>, count: usize) -> fmt::Result {
    for _ in 0..count / 4 {
        f.write_str("    ")?;
    }
    for _ in 0..count % 4 {
        f.write_str(" ")?;
    }
    Ok(())
}

// The first four bits in one text. A call for each bit would be most of what it costs to show a word.
fn four(word: u32) -> &'static str
    ensures { result.now ≡ bits_text word 4 }
{
    match word % 16 {
        0 => "0000",
        1 => "1000",
        2 => "0100",
        3 => "1100",
        4 => "0010",
        5 => "1010",
        6 => "0110",
        7 => "1110",
        8 => "0001",
        9 => "1001",
        10 => "0101",
        11 => "1101",
        12 => "0011",
        13 => "1011",
        14 => "0111",
        _ => "1111",
    }
}

// A number with its noun, which has an s where there is not one alone.
#[derive(Clone, Copy, Debug, PartialEq, Eq)]
pub struct Count {
    pub number: u64,
    pub noun: &'static str,
}

impl fmt::Display for Count {
    ghost output = { λ c. Some (count_text c.number c.noun.now) };

    fn fmt<W: fmt::Write>(&self, f: &mut fmt::Formatter<W>) -> fmt::Result {
        let plural = if self.number == 1 { "" } else { "s" };
        write!(f, "{} {}{plural}", self.number, self.noun)
    }
}

#[cfg(test)]
mod tests {
    use super::*;
    use std::test::Fail;

    #[test]
    fn shows_a_name(rt: HostRuntime) -> Result<(), Fail> {
        let mut out = Vec::new(rt.alloc());
        out.push(b'<')?;
        push_name(&mut out, b"a\x1b\x7f\xff.sheet")?;
        assert_eq!(rt; out.as_slice(), b"<a??\xff.sheet".as_slice());
        Ok(())
    }

    // What no clause says: bits in a width stand at its left.
    #[test]
    fn shows_bits_in_a_width(rt: HostRuntime) -> Result<(), Fail> {
        let bits = Bits { word: 6, count: 4 };
        let shown = format!(in rt.alloc(); "{bits}|{bits:6}|{bits:2}|")?;
        assert_eq!(rt; shown.as_str(), "0110|0110  |0110|");
        Ok(())
    }
}
