//! The messages of a client's stream, as lines: each its words, or those of the fault of its body.

use crate::fault::Fault;
use crate::server::message::push_line;
use crate::stream::{Messages, StreamProgress};
use pg_frames::frontend::{ClientMessageRef, FrontendError, FrontendFrameReader};
use pg_server::frontend::FrontendFault;
use std::alloc::{AllocError, Global};

impl Messages for FrontendFrameReader {
    fn feed(&mut self, bytes: &[u8]) -> Result<(), AllocError> {
        self.feed(bytes)
    }

    fn push_lines(&mut self, alloc: Global, lines: &mut String) -> Result<StreamProgress, Fault> {
        push_lines(alloc, self, lines)
    }

    fn rest(&self) -> usize {
        self.len()
    }
}

#[tactic(auto, using(crate::proofs::ServerStreamLemmas::leaves_fewer))]
fn push_lines(
    alloc: Global,
    reader: &mut FrontendFrameReader,
    lines: &mut String,
) -> Result<StreamProgress, Fault> {
    loop {
        match reader.next_message() {
            Ok(Some(message)) => push_whole_line(alloc, message.read(), lines)?,
            Ok(None) => return Ok(StreamProgress::WantsMore),
            Err(error) => return push_fault(alloc, error, lines),
        }
    }
}

fn push_fault(
    alloc: Global,
    error: FrontendError,
    lines: &mut String,
) -> Result<StreamProgress, Fault> {
    let FrontendError::Protocol(fault) = error else {
        return Err(Fault::OutOfMemory);
    };
    push_whole_line(alloc, Err(fault), lines)?;
    Ok(StreamProgress::Stopped)
}

fn push_whole_line(
    alloc: Global,
    message: Result<ClientMessageRef<'_>, FrontendFault>,
    lines: &mut String,
) -> Result<(), AllocError> {
    let mut line = String::new(alloc);
    push_line(message, &mut line)?;
    lines.push_str(line.as_str())
}
