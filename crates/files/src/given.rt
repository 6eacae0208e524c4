// The words that the program was given.
ghost use Rattle.std.specs.Prelude.{◌≡◌, None, IsSome, MatchResult};
ghost use Rattle.files.specs.Name.{word_bytes};

use crate::fault::Fault;
use std::alloc::{AllocError, Global};
use std::env::{Env, FillError};
use std::io;

// The system's number for a name that is too long.
const TOO_LONG: i32 = 36;

// A word that the program was given. One that is too long for any name is not held.
#[derive(Debug, Drop)]
pub struct Word {
    held: Option<Vec<u8>>,
}

impl Word {
    // The bytes of the word, none where it is too long.
    pub fn bytes(&self) -> &[u8]
        ensures { result.now ≡ word_bytes self.now }
    {
        match &self.held {
            Some(bytes) => bytes.as_slice(),
            None => b"",
        }
    }

    // The word as a file's name; a fault says whose name it is.
    pub fn name(&self, alloc: Global, whose: &str) -> Result<&[u8], Fault>
        ensures { MatchResult result (λ name. IsSome self.now.held × (name.now ≡ word_bytes self.now))
            (λ _. self.now.held ≡ None) }
    {
        match &self.held {
            Some(bytes) => Ok(bytes.as_slice()),
            None => {
                let error = io::Error::from_raw_os_error(TOO_LONG);
                Err(Fault::of_file(alloc, whose.as_bytes(), error))
            }
        }
    }
}

// The word of this number, if there is one; the first after the program's own name is 1. Words are taken one by one, so
// that the program holds those alone that count. The list that std makes is none where a word is not UTF-8.
pub fn word_at(rt: &HostRuntime, number: usize) -> Result<Option<Word>, AllocError> {
    let mut room = [0u8; 4096];
    let held = match rt.arg(number, &mut room) {
        Ok(n) => Some(room[..n].to_vec(rt.alloc())?),
        Err(FillError::TooLong) => None,
        Err(FillError::NotPresent) => return Ok(None),
    };
    Ok(Some(Word { held }))
}

// All words after the program's own name.
pub fn words(rt: &HostRuntime) -> Result<Vec<Word>, AllocError> {
    let mut all = Vec::new(rt.alloc());
    for number in 1..usize::MAX {
        match word_at(rt, number)? {
            Some(word) => all.push(word)?,
            None => break,
        }
    }
    Ok(all)
}

#[cfg(test)]
mod tests {
    use super::*;
    use std::test::Fail;

    // However many words the test is given, none has this number; the program's own name has number 0.
    #[test]
    fn finds_words(rt: HostRuntime) -> Result<(), Fail> {
        let own = word_at(&rt, 0)?;
        assert!(rt; own.is_some());
        let none = word_at(&rt, usize::MAX)?;
        assert!(rt; none.is_none());
        Ok(())
    }

    // However many words the test is given, the one after the last that is found is none.
    #[test]
    fn finds_all_words(rt: HostRuntime) -> Result<(), Fail> {
        let all = words(&rt)?;
        let mut room = [0u8; 4096];
        let next = rt.arg(all.len().saturating_add(1), &mut room);
        assert!(rt; matches!(next, Err(FillError::NotPresent)));
        Ok(())
    }
}
