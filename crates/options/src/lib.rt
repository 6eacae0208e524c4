// The words after a command: its options, each with a value, and its files.
#![tactic(auto)]

ghost use Rattle.std.specs.Prelude.{◌≡◌, ◌≤◌, [], map, IfOk, OnOk, IfSome, IsTrue, ◌↔◌};
ghost use Rattle.files.specs.Name.{word_bytes};
ghost use Rattle.options.specs.Given.{IsOptionWord, IsPlain, NoOptionAmong, NoOptionIn, names, few};

use files::Word;
use status::Fault;
use std::alloc::Global;
use std::str;

// The files that are given, in order; no command takes more than two.
#[derive(Clone, Copy)]
pub enum Files<'a> {
    None,
    One(&'a Word),
    Two(&'a Word, &'a Word),
    More,
}

#[derive(Clone, Copy)]
pub struct Options<'a> {
    pub code: Option<&'a Word>,
    pub sheet: Option<&'a Word>,
    pub state: Option<&'a Word>,
    pub clock: Option<&'a Word>,
    pub files: Files<'a>,
}

// The words that options are made of, whatever else was given: each option's last value, and the first three files.
#[derive(Drop)]
pub struct Given {
    code: Option<Word>,
    sheet: Option<Word>,
    state: Option<Word>,
    clock: Option<Word>,
    files: Vec<Word>,
}

// An option that takes a value.
#[derive(Clone, Copy, Debug, PartialEq, Eq)]
enum Named {
    Code,
    Sheet,
    State,
    Clock,
}

// What a word is.
#[derive(Clone, Copy, Debug, PartialEq, Eq)]
enum Kind {
    Option(Named),
    Unknown,
    File,
}

fn kind_of(word: &[u8]) -> Kind
    ensures { result ≡ Kind.File → ¬ IsOptionWord word.now }
{
    match word {
        b"--code" => Kind::Option(Named::Code),
        b"--sheet" => Kind::Option(Named::Sheet),
        b"--state" => Kind::Option(Named::State),
        b"--clock" => Kind::Option(Named::Clock),
        [b'-', _, ..] => Kind::Unknown,
        _ => Kind::File,
    }
}

impl Named {
    // The option's own word.
    fn word(self) -> &'static [u8] {
        match self {
            Named::Code => b"--code",
            Named::Sheet => b"--sheet",
            Named::State => b"--state",
            Named::Clock => b"--clock",
        }
    }
}

impl Given {
    fn none(alloc: Global) -> Given
        ensures { result.files.items ≡ [] }
    {
        Given {
            code: None,
            sheet: None,
            state: None,
            clock: None,
            files: Vec::new(alloc),
        }
    }

    fn set(&mut self, named: Named, value: Word)
        ensures { self.new.files ≡ self.old.files }
    {
        match named {
            Named::Code => self.code = Some(value),
            Named::Sheet => self.sheet = Some(value),
            Named::State => self.state = Some(value),
            Named::Clock => self.clock = Some(value),
        }
    }

    // One more file.
    fn add(&mut self, file: Word) -> Result<(), Fault>
        ensures { ¬ IsOptionWord (word_bytes file) → NoOptionIn self.old.files.items → OnOk result (NoOptionIn self.new.files.items) }
    {
        if self.files.len() < 3 {
            self.files.push(file)?;
        }
        Ok(())
    }

    // The words from this number on, up to one that is at fault. An option that stands twice has the last value.
    pub fn of(rt: &HostRuntime, from: usize) -> Result<Given, Fault>
        ensures { IfOk result (λ given. NoOptionIn given.files.items) }
    {
        let alloc = rt.alloc();
        let mut given = Given::none(alloc);
        // The option whose value the next word is.
        let mut lacking = None;
        for number in from..usize::MAX {
            let Some(word) = files::word_at(rt, number)? else {
                break;
            };
            lacking = match (lacking, kind_of(word.bytes())) {
                (Some(named), _) => {
                    given.set(named, word);
                    None
                }
                (None, Kind::Option(named)) => Some(named),
                (None, Kind::Unknown) => {
                    return Err(Fault::of_word(alloc, "there is no option", &word));
                }
                (None, Kind::File) => {
                    given.add(word)?;
                    None
                }
            };
        }
        match lacking {
            Some(named) => Err(Fault::Word {
                what: "a value is missing after",
                word: named.word().to_vec(alloc)?,
            }),
            None => Ok(given),
        }
    }

    pub fn options(&self) -> Options<'_>
        ensures { names result.files ≡ few self.now.files.items }
    {
        Options {
            code: self.code.as_ref(),
            sheet: self.sheet.as_ref(),
            state: self.state.as_ref(),
            clock: self.clock.as_ref(),
            files: match self.files.as_slice() {
                [] => Files::None,
                [file] => Files::One(file),
                [first, second] => Files::Two(first, second),
                _ => Files::More,
            },
        }
    }
}

impl<'a> Files<'a> {
    fn of(list: &[&'a Word]) -> Files<'a>
        ensures in_order { names result ≡ few (map (λ word. word.now) list.now) }
        ensures no_option { NoOptionAmong list.now → IfSome (names result) NoOptionIn }
    {
        match list {
            [] => Files::None,
            [one] => Files::One(one),
            [one, two] => Files::Two(one, two),
            _ => Files::More,
        }
    }
}

impl<'a> Options<'a> {
    fn none() -> Options<'a>
        ensures { IsPlain result }
    {
        Options {
            code: None,
            sheet: None,
            state: None,
            clock: None,
            files: Files::None,
        }
    }

    fn set(&mut self, named: Named, value: &'a Word) {
        match named {
            Named::Code => self.code = Some(value),
            Named::Sheet => self.sheet = Some(value),
            Named::State => self.state = Some(value),
            Named::Clock => self.clock = Some(value),
        }
    }

    // All words after a command, from a list that the caller has, and beside the options all files in order, however many.
    // An option that stands twice has the last value.
    pub fn with_files(
        alloc: Global,
        words: &'a [Word],
    ) -> Result<(Options<'a>, Vec<&'a Word>), Fault>
        ensures no_option { IfOk result (λ both. NoOptionAmong both.1.items) }
        ensures no_option_named { IfOk result (λ both. IfSome (names both.0.files) NoOptionIn) }
        ensures in_order { IfOk result (λ both. names both.0.files ≡ few (map (λ word. word.now) both.1.items)) }
    {
        let mut options = Options::none();
        let mut files = Vec::new(alloc);
        // The option whose value the next word is, with its own word.
        let mut lacking = None;
        for word in words {
            lacking = match (lacking, kind_of(word.bytes())) {
                (Some((named, _)), _) => {
                    options.set(named, word);
                    None
                }
                (None, Kind::Option(named)) => Some((named, word)),
                (None, Kind::Unknown) => {
                    return Err(Fault::of_word(alloc, "there is no option", word));
                }
                (None, Kind::File) => {
                    files.push(word)?;
                    None
                }
            };
        }
        if let Some((_, word)) = lacking {
            return Err(Fault::of_word(alloc, "a value is missing after", word));
        }
        options.files = Files::of(files.as_slice());
        Ok((options, files))
    }

    // The same without the list of files.
    pub fn of(alloc: Global, words: &'a [Word]) -> Result<Options<'a>, Fault>
        ensures { IfOk result (λ options. IfSome (names options.files) NoOptionIn) }
    {
        let (options, _) = Options::with_files(alloc, words)?;
        Ok(options)
    }

    // Whether no option is given.
    pub fn is_plain(&self) -> bool
        ensures { IsTrue result ↔ IsPlain self.now }
    {
        self.code.is_none() && self.sheet.is_none() && self.state.is_none() && self.clock.is_none()
    }
}

// The number that digits are, if it has no more than 32 bits.
fn number_of(digits: &[u8]) -> Option<u32> {
    // A sign is no digit, though `parse` takes one.
    if !digits.iter().all(|b| b.is_ascii_digit()) {
        return None;
    }
    str::from_utf8(digits).ok()?.parse::<u32>().ok()
}

// The number that an option's value is, up to the most, where it is given.
pub fn number_up_to(
    value: Option<&Word>,
    most: u32,
    usage: &'static str,
) -> Result<Option<u32>, Fault>
    ensures { IfOk result (λ given. IfSome given (λ n. n ≤ most)) }
{
    let Some(word) = value else { return Ok(None) };
    match number_of(word.bytes()) {
        Some(n) if n <= most => Ok(Some(n)),
        _ => Err(Fault::Usage(usage)),
    }
}

#[cfg(test)]
mod tests {
    use super::*;
    use std::test::Fail;

    // No word has these numbers.
    #[test]
    fn takes_no_word(rt: HostRuntime) -> Result<(), Fail> {
        let Ok(given) = Given::of(&rt, usize::MAX - 1) else {
            return Err(Fail::new("no word is refused"));
        };
        let options = given.options();
        assert!(rt; options.is_plain());
        assert!(rt; matches!(options.files, Files::None));
        Ok(())
    }

    #[test]
    fn takes_no_word_of_a_list(rt: HostRuntime) -> Result<(), Fail> {
        let Ok(options) = Options::of(rt.alloc(), &[]) else {
            return Err(Fail::new("no word is refused"));
        };
        assert!(rt; options.is_plain());
        assert!(rt; matches!(options.files, Files::None));
        Ok(())
    }

    // The program's own name is no option, so that three of it are three files.
    #[test]
    fn takes_files_of_a_list(rt: HostRuntime) -> Result<(), Fail> {
        let mut words = Vec::new(rt.alloc());
        for _ in 0..3 {
            let Some(own) = files::word_at(&rt, 0)? else {
                return Err(Fail::new("the program has no name"));
            };
            words.push(own)?;
        }
        let Ok((options, files)) = Options::with_files(rt.alloc(), words.as_slice()) else {
            return Err(Fail::new("three files are refused"));
        };
        assert!(rt; options.is_plain());
        assert!(rt; matches!(options.files, Files::More));
        assert_eq!(rt; files.len(), 3);
        let Some((_, two)) = words.as_slice().split_first() else {
            return Err(Fail::new("no word is left"));
        };
        let Ok(options) = Options::of(rt.alloc(), two) else {
            return Err(Fail::new("two files are refused"));
        };
        assert!(rt; matches!(options.files, Files::Two(..)));
        Ok(())
    }
}
