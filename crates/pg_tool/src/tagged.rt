//! A tag and a body on a line: two hexadecimal digits, a space, and the digits of the body.

ghost use Rattle.std.specs.Prelude.{length};
ghost use Rattle.std.specs.Iterator.{at_most};

use crate::digits::{hex_array, hex_bytes};
use crate::fault::Fault;
use crate::lines::Lines;
use std::alloc::Global;

/// A tag and the body after it.
#[derive(Drop)]
pub struct TaggedBody {
    pub tag: u8,
    pub body: Vec<u8>,
}

/// The tag and the body that a line spells, where it fits the form.
pub fn tagged_body(alloc: Global, line: &[u8]) -> Result<Option<TaggedBody>, Fault> {
    let Ok(line) = std::str::from_utf8(line) else {
        return Ok(None);
    };
    let Some((tag, body)) = line.split_once(' ') else {
        return Ok(None);
    };
    let Some(tag) = hex_array::<1>(tag) else {
        return Ok(None);
    };
    match hex_bytes(alloc, body)? {
        Some(body) => Ok(Some(TaggedBody { tag: tag[0], body })),
        None => Ok(None),
    }
}

/// The tags and bodies that the lines of some input spell. A line that spells none is a `BadLine`.
#[derive(Drop)]
pub struct TaggedBodies<'a> {
    alloc: Global,
    lines: Lines<'a>,
    number: usize,
}

impl<'a> TaggedBodies<'a> {
    /// Those of all lines of an input.
    pub fn new(alloc: Global, input: &'a [u8]) -> Self {
        TaggedBodies {
            alloc,
            lines: Lines::new(input),
            number: 0,
        }
    }
}

impl<'a> Iterator for TaggedBodies<'a> {
    type Item = Result<TaggedBody, Fault>;

    ghost remaining = { λ bodies. at_most (length bodies.lines.rest.now) };

    fn next(&mut self) -> Option<Result<TaggedBody, Fault>> {
        let line = self.lines.next()?;
        self.number = self.number.saturating_add(1);
        let bad = Fault::BadLine(self.number);
        Some(match tagged_body(self.alloc, line) {
            Ok(body) => body.ok_or(bad),
            Err(fault) => Err(fault),
        })
    }
}
