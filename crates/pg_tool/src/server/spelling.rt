//! What the words of a line spell.

use crate::digits::{hex_array, hex_bytes};
use crate::fault::Fault;
use crate::numbers::{i8_of, i16_of, i32_of, u16_of, u32_of};
use pg_base::io::Oid;
use std::alloc::Global;

/// What a word can spell.
pub trait FromWord: Sized + Drop {
    /// What the word spells. Where it spells none, the line of the word is bad.
    fn of(word: Word<'_>) -> Result<Self, Fault>;
}

/// A word of a line, or a part of one.
#[derive(Clone, Copy)]
pub struct Word<'a> {
    pub text: &'a str,
    pub alloc: Global,
    /// The fault of its line, where it spells nothing.
    pub bad: Fault,
}

impl<'a> Word<'a> {
    /// The parts of it, with a sign between them.
    pub fn parts(self, sign: char) -> Parts<'a> {
        Parts {
            rest: Some(self.text),
            sign,
            alloc: self.alloc,
            bad: self.bad,
        }
    }
}

/// The parts of a line or of a word, with a sign between them.
#[derive(Drop)]
pub struct Parts<'a> {
    rest: Option<&'a str>,
    sign: char,
    alloc: Global,
    bad: Fault,
}

impl<'a> Parts<'a> {
    /// The next part, where there is one.
    pub fn part(&mut self) -> Result<Word<'a>, Fault> {
        let rest = self.rest.ok_or(self.bad)?;
        let (text, rest) = match rest.split_once(self.sign) {
            Some((text, rest)) => (text, Some(rest)),
            None => (rest, None),
        };
        self.rest = rest;
        Ok(Word {
            text,
            alloc: self.alloc,
            bad: self.bad,
        })
    }

    /// What the next part spells.
    pub fn read<T: FromWord>(&mut self) -> Result<T, Fault> {
        T::of(self.part()?)
    }

    /// What the next part spells with commas between the items, or `-` for none.
    pub fn list<T: FromWord>(&mut self) -> Result<Vec<T>, Fault> {
        let word = self.part()?;
        let mut items = Vec::new(word.alloc);
        if word.text == "-" {
            return Ok(items);
        }
        for text in word.text.split(',') {
            items.push(T::of(Word { text, ..word })?)?;
        }
        Ok(items)
    }

    /// That no part is left.
    pub fn end(&self) -> Result<(), Fault> {
        match self.rest {
            None => Ok(()),
            Some(_) => Err(self.bad),
        }
    }
}

impl FromWord for u32 {
    fn of(word: Word<'_>) -> Result<u32, Fault> {
        u32_of(word.text).ok_or(word.bad)
    }
}

impl FromWord for u16 {
    fn of(word: Word<'_>) -> Result<u16, Fault> {
        u16_of(word.text).ok_or(word.bad)
    }
}

impl FromWord for i32 {
    fn of(word: Word<'_>) -> Result<i32, Fault> {
        i32_of(word.text).ok_or(word.bad)
    }
}

impl FromWord for i16 {
    fn of(word: Word<'_>) -> Result<i16, Fault> {
        i16_of(word.text).ok_or(word.bad)
    }
}

impl FromWord for i8 {
    fn of(word: Word<'_>) -> Result<i8, Fault> {
        i8_of(word.text).ok_or(word.bad)
    }
}

impl FromWord for Oid {
    fn of(word: Word<'_>) -> Result<Oid, Fault> {
        Ok(Oid(u32::of(word)?))
    }
}

// Four bytes by their digits.
impl FromWord for [u8; 4] {
    fn of(word: Word<'_>) -> Result<[u8; 4], Fault> {
        hex_array(word.text).ok_or(word.bad)
    }
}

// Bytes by their digits, or `-` for none.
impl FromWord for Vec<u8> {
    fn of(word: Word<'_>) -> Result<Vec<u8>, Fault> {
        hex_bytes(word.alloc, word.text)?.ok_or(word.bad)
    }
}

// A value: `null`, or `x` and its digits.
impl FromWord for Option<Vec<u8>> {
    fn of(word: Word<'_>) -> Result<Option<Vec<u8>>, Fault> {
        if word.text == "null" {
            return Ok(None);
        }
        match word.text.strip_prefix('x') {
            Some("") => Ok(Some(Vec::new(word.alloc))),
            None | Some("-") => Err(word.bad),
            Some(text) => Ok(Some(Vec::of(Word { text, ..word })?)),
        }
    }
}
