//! Lines that hold a body from a client, and what each reads as.

use crate::digits::hex_bytes;
use crate::fault::Fault;
use crate::lines::Lines;
use crate::server::message::push_line;
use crate::tagged::{TaggedBody, tagged_body};
use pg_frames::frontend::ClientMessageRef;
use pg_server::frontend::{FirstMessageRef, FrontendFault, FrontendMessageRef};
use std::alloc::Global;

/// The word in place of a tag on the line of a first message.
const FIRST: &str = "first";

/// What a line spells.
#[derive(Drop)]
enum ClientBody {
    /// The body of a first message, which has no tag.
    First(Vec<u8>),
    /// The body of any other.
    Tagged(TaggedBody),
}

impl ClientBody {
    fn read(&self) -> Result<ClientMessageRef<'_>, FrontendFault> {
        match self {
            ClientBody::First(body) => {
                Ok(ClientMessageRef::First(FirstMessageRef::read(body.as_slice())?))
            }
            ClientBody::Tagged(TaggedBody { tag, body }) => Ok(ClientMessageRef::Tagged(
                FrontendMessageRef::read(*tag, body.as_slice())?,
            )),
        }
    }
}

/// A line for each line of input: the message and its fields, or the words of its fault.
pub fn decode(alloc: Global, input: &[u8]) -> Result<String, Fault> {
    let mut output = String::new(alloc);
    for (index, line) in Lines::new(input).enumerate() {
        let body = body_of(alloc, line)?;
        let body = body.ok_or(Fault::BadLine(index.saturating_add(1)))?;
        push_line(body.read(), &mut output)?;
    }
    Ok(output)
}

// The body that a line spells, where it fits a form.
fn body_of(alloc: Global, line: &[u8]) -> Result<Option<ClientBody>, Fault> {
    match first_word(line) {
        Some(word) => first_body_of(alloc, word),
        None => tagged_body_of(alloc, line),
    }
}

fn first_body_of(alloc: Global, word: &str) -> Result<Option<ClientBody>, Fault> {
    match hex_bytes(alloc, word)? {
        Some(body) => Ok(Some(ClientBody::First(body))),
        None => Ok(None),
    }
}

fn tagged_body_of(alloc: Global, line: &[u8]) -> Result<Option<ClientBody>, Fault> {
    match tagged_body(alloc, line)? {
        Some(body) => Ok(Some(ClientBody::Tagged(body))),
        None => Ok(None),
    }
}

// What follows `first` on a line that begins with it.
fn first_word(line: &[u8]) -> Option<&str> {
    let (front, word) = std::str::from_utf8(line).ok()?.split_once(' ')?;
    (front == FIRST).then_some(word)
}
