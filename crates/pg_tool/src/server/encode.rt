//! Lines that name messages to a client, and the frames that they become.

use crate::answers::push_answer;
use crate::fault::Fault;
use crate::frames::push_frames;
use crate::lines::Lines;
use crate::server::frame::push_frame;
use crate::server::reply_line::reply_of;
use pg_base::Error;
use std::alloc::Global;

/// The answers to the messages that the lines name, a line each, and then their frames.
pub fn encode(alloc: Global, input: &[u8]) -> Result<String, Fault> {
    let mut frames = Vec::new(alloc);
    let mut output = String::new(alloc);
    for (index, line) in Lines::new(input).enumerate() {
        let number = index.saturating_add(1);
        push_message(alloc, number, line, &mut frames, &mut output)?;
    }
    push_frames(frames.as_slice(), &mut output)?;
    Ok(output)
}

// The answer to the message of a line, by the line's number, and the message's frame.
fn push_message(
    alloc: Global,
    number: usize,
    line: &[u8],
    frames: &mut Vec<u8>,
    output: &mut String,
) -> Result<(), Fault> {
    let answer = push_frame_of(alloc, line, Fault::BadLine(number), frames)?;
    push_answer(number, &answer, output)?;
    Ok(())
}

// The frame of the message of a line, and whether it was refused.
fn push_frame_of(
    alloc: Global,
    line: &[u8],
    bad: Fault,
    frames: &mut Vec<u8>,
) -> Result<Result<(), Error>, Fault> {
    let reply = reply_of(alloc, line, bad)?;
    Ok(push_frame(alloc, &reply, frames))
}
