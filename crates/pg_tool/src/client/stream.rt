//! The messages of a server's stream, as lines: each its name, its length field and its body.

use crate::digits::Hex;
use crate::fault::Fault;
use crate::stream::{Messages, StreamProgress};
use pg_base::Error;
use pg_frames::FrameReader;
use pg_receive::message::ReceivedMessage;
use std::alloc::{AllocError, Global};

/// The bytes of a length field, which counts itself.
const LENGTH_FIELD: usize = 4;

impl Messages for FrameReader {
    fn feed(&mut self, bytes: &[u8]) -> Result<(), AllocError> {
        match self.feed(bytes) {
            Ok(()) => Ok(()),
            Err(_) => Err(AllocError),
        }
    }

    fn push_lines(&mut self, alloc: Global, lines: &mut String) -> Result<StreamProgress, Fault> {
        push_lines(alloc, self, lines)
    }

    fn rest(&self) -> usize {
        self.len()
    }
}

fn push_lines(
    alloc: Global,
    reader: &mut FrameReader,
    lines: &mut String,
) -> Result<StreamProgress, Fault> {
    loop {
        match reader.next_message() {
            Ok(Some(message)) => push_message(alloc, &message, lines)?,
            Ok(None) => return Ok(StreamProgress::WantsMore),
            Err(error) => return push_fault(alloc, error, lines),
        }
    }
}

fn push_message(
    alloc: Global,
    message: &ReceivedMessage,
    lines: &mut String,
) -> Result<(), AllocError> {
    lines.push_str(line_of(alloc, message)?.as_str())
}

fn push_fault(alloc: Global, error: Error, lines: &mut String) -> Result<StreamProgress, Fault> {
    let Error::Protocol { fault, .. } = error else {
        return Err(Fault::OutOfMemory);
    };
    lines.push_str(format!(in alloc; "{fault}\n")?.as_str())?;
    Ok(StreamProgress::Stopped)
}

fn line_of(alloc: Global, message: &ReceivedMessage) -> Result<String, AllocError> {
    let name = message.format.name();
    let length = message.contents.len().saturating_add(LENGTH_FIELD);
    format!(in alloc; "{name} {length} {}\n", Hex(message.contents.as_slice()))
}
