//! Lines that hold a tag and a body from the server, and whether each decodes.

use crate::fault::Fault;
use crate::tagged::{TaggedBodies, TaggedBody};
use bytes::Bytes;
use pg_base::{BackendMessageFormat, Error};
use pg_receive::message::{ReceivedMessage, ServerMessage};
use std::alloc::{AllocError, Global};

/// A line for each line of input: the name of the message and `ok` or `untyped`, or the error.
pub fn decode(alloc: Global, input: &[u8]) -> Result<String, Fault> {
    let mut output = String::new(alloc);
    for body in TaggedBodies::new(alloc, input) {
        push_line(name_and_word(alloc, body?), &mut output)?;
    }
    Ok(output)
}

fn push_line(
    decoded: Result<(&'static str, &'static str), Error>,
    output: &mut String,
) -> Result<(), AllocError> {
    match decoded {
        Ok((name, word)) => writeln!(output, "{name} {word}"),
        Err(error) => writeln!(output, "{error}"),
    }
}

// The name of a message that decodes, and what its line says of it.
fn name_and_word(
    alloc: Global,
    message: TaggedBody,
) -> Result<(&'static str, &'static str), Error> {
    let TaggedBody { tag, body } = message;
    let format = BackendMessageFormat::try_from_u8(tag)?;
    let contents = Bytes::from_vec(body)?;
    let message = ServerMessage::decode(alloc, ReceivedMessage { format, contents })?;
    Ok((format.name(), word_of(&message)))
}

// `ok` where its kind has a type, `untyped` where it has none.
fn word_of(message: &ServerMessage) -> &'static str {
    match message {
        ServerMessage::BindComplete
        | ServerMessage::CloseComplete
        | ServerMessage::EmptyQueryResponse
        | ServerMessage::NoData
        | ServerMessage::ParseComplete
        | ServerMessage::PortalSuspended => "untyped",
        _ => "ok",
    }
}
