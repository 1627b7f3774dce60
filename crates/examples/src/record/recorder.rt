//! The lines of a stream.

use pg_message::error::Error;
use pg_message::message::{FrameReader, ReceivedMessage};
use std::alloc::{AllocError, Global};

/// The length of a length field, in bytes. It counts itself.
const LENGTH_FIELD: usize = 4;

const DIGITS: [char; 16] = [
    '0', '1', '2', '3', '4', '5', '6', '7', '8', '9', 'a', 'b', 'c', 'd', 'e', 'f',
];

/// A line for each message of a stream from a server.
#[derive(Drop)]
pub struct Recorder {
    alloc: Global,
    reader: FrameReader,
    lines: Vec<String>,
}

impl Recorder {
    /// A recorder of a stream of which nothing has come.
    pub fn new(alloc: Global) -> Recorder {
        Recorder {
            alloc,
            reader: FrameReader::new(alloc),
            lines: Vec::new(alloc),
        }
    }

    /// The lines so far. Each is the name of a message, the length in bytes that its length field
    /// says, and its body in lower hexadecimal digits, or `-` for no body.
    pub fn lines(&self) -> &[String] {
        self.lines.as_slice()
    }

    /// How many bytes have come that are no whole message.
    pub fn rest(&self) -> usize {
        self.reader.len()
    }

    /// Records the next bytes of the stream, in a piece of any length.
    ///
    /// A fault of the stream comes again at each further call. After `OutOfMemory` a line may be
    /// missing.
    pub fn record(&mut self, piece: &[u8]) -> Result<(), Error> {
        self.reader.feed(piece)?;
        while let Some(message) = self.reader.next_message()? {
            let line = line_of(self.alloc, &message)?;
            self.lines.push(line)?;
        }
        Ok(())
    }
}

fn line_of(alloc: Global, message: &ReceivedMessage) -> Result<String, AllocError> {
    let name = message.format.name();
    let body = message.contents.as_slice();
    let length = body.len().saturating_add(LENGTH_FIELD);
    let mut line = format!(in alloc; "{name} {length} ")?;
    if body.is_empty() {
        line.push('-')?;
    }
    for byte in body {
        line.push(DIGITS[usize::from(byte >> 4)])?;
        line.push(DIGITS[usize::from(byte & 0x0F)])?;
    }
    Ok(line)
}
