//! Raw bytes of either side, and a line for each message as soon as it is whole.

use crate::fault::Fault;
use crate::text::write_text;
use std::alloc::{AllocError, Global};
use std::io::{self, Read, Write};

/// The most bytes that are read at a time.
const PIECE: usize = 8192;

/// Whether a stream gives more messages.
#[derive(Clone, Copy)]
pub enum StreamProgress {
    /// It does as soon as more bytes come.
    WantsMore,
    /// No message begins as the bytes go on.
    Stopped,
}

/// A stream of one side, as far as its bytes came in.
pub trait Messages: Sized + Drop {
    /// Takes the next bytes of the stream.
    fn feed(&mut self, bytes: &[u8]) -> Result<(), AllocError>;

    /// Adds a line for each message that is whole, or for a fault of the stream. Each line is added whole
    /// or not at all.
    fn push_lines(&mut self, alloc: Global, lines: &mut String) -> Result<StreamProgress, Fault>;

    /// How many bytes are no whole message yet.
    fn rest(&self) -> usize;
}

/// Reads the input to its end, and writes a line for each message. The lines of what was read are written and
/// flushed before more is read. The last line counts the bytes that are no whole message, where there are any,
/// or says what is wrong with the stream, which ends it. After a fault of the program's own the lines so far stand.
pub fn stream<M: Messages, R: Read, W: Write>(
    alloc: Global,
    messages: M,
    input: &mut R,
    output: &mut W,
) -> Result<(), Fault> {
    let mut messages = messages;
    let mut piece = [0; PIECE];
    for _ in 0..u64::MAX {
        let count = match input.read(&mut piece) {
            Ok(0) => break,
            Ok(count) => count,
            Err(error) if error.kind() == io::ErrorKind::Interrupted => continue,
            Err(error) => return Err(Fault::of_read(error)),
        };
        match pass_on(alloc, &piece[..count], &mut messages, output)? {
            StreamProgress::WantsMore => {}
            StreamProgress::Stopped => return Ok(()),
        }
    }
    write_rest(alloc, messages.rest(), output)
}

// Takes bytes, and writes the lines of the messages that are whole with them.
fn pass_on<M: Messages, W: Write>(
    alloc: Global,
    bytes: &[u8],
    messages: &mut M,
    output: &mut W,
) -> Result<StreamProgress, Fault> {
    messages.feed(bytes)?;
    let mut lines = String::new(alloc);
    let progress = messages.push_lines(alloc, &mut lines);
    write_text(output, lines.as_str())?;
    progress
}

// The last line: how many bytes are no whole message, where there are any.
fn write_rest<W: Write>(alloc: Global, rest: usize, output: &mut W) -> Result<(), Fault> {
    if rest == 0 {
        return Ok(());
    }
    write_text(output, format!(in alloc; "rest {rest}\n")?.as_str())
}
