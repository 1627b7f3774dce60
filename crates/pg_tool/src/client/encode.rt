//! Lines that name messages to the server, and the frames that they become.

use crate::answers::push_answer;
use crate::client::command::{Command, command_of, message_of};
use crate::fault::Fault;
use crate::frames::push_frames;
use crate::lines::Lines;
use pg_base::Error;
use pg_send::message::{TaggedMessage, encode_all, encode_strict};
use std::alloc::{AllocError, Global};

// The line that makes the run strict, where it is the first.
const STRICT: &[u8] = b"strict";

/// The answers to the messages that the lines name, a line each, and then their frames.
pub fn encode(alloc: Global, input: &[u8]) -> Result<String, Fault> {
    let (strict, lines) = strict_and_lines(input);
    let commands = commands(alloc, lines, 1 + usize::from(strict))?;
    let messages = messages(alloc, commands.as_slice())?;
    output_of(alloc, strict, messages.as_slice())
}

// The answers to a run of messages, and their frames.
fn output_of(alloc: Global, strict: bool, messages: &[TaggedMessage<'_>]) -> Result<String, Fault> {
    let mut frames = Vec::new(alloc);
    let mut output = String::new(alloc);
    push_run(alloc, strict, messages, &mut frames, &mut output)?;
    push_frames(frames.as_slice(), &mut output)?;
    Ok(output)
}

// The answers to a run of messages, whose frames are written beside them.
fn push_run(
    alloc: Global,
    strict: bool,
    messages: &[TaggedMessage<'_>],
    frames: &mut Vec<u8>,
    output: &mut String,
) -> Result<(), Fault> {
    let run = if strict {
        encode_strict(alloc, messages, frames)
    } else {
        encode_all(alloc, messages, frames)
    };
    let Ok(answers) = run else {
        return Err(Fault::OutOfMemory);
    };
    push_answers(answers.as_slice(), output)?;
    Ok(())
}

// Whether the first line makes the run strict, and the lines of messages.
fn strict_and_lines(input: &[u8]) -> (bool, &[u8]) {
    match input.strip_prefix(STRICT) {
        Some([]) => (true, &[]),
        Some([b'\n', lines @ ..]) => (true, lines),
        _ => (false, input),
    }
}

fn messages<'a>(
    alloc: Global,
    commands: &'a [Command<'a>],
) -> Result<Vec<TaggedMessage<'a>>, AllocError> {
    commands.iter().map(message_of).collect(alloc)
}

// The commands of the lines, the first of which has this number.
fn commands(alloc: Global, lines: &[u8], first: usize) -> Result<Vec<Command<'_>>, Fault> {
    let mut commands = Vec::new(alloc);
    for (index, line) in Lines::new(lines).enumerate() {
        commands.push(command_at(alloc, line, index.saturating_add(first))?)?;
    }
    Ok(commands)
}

// The command of the line of this number.
fn command_at(alloc: Global, line: &[u8], number: usize) -> Result<Command<'_>, Fault> {
    let bad = Fault::BadLine(number);
    let Ok(line) = std::str::from_utf8(line) else {
        return Err(bad);
    };
    command_of(alloc, line)?.ok_or(bad)
}

fn push_answers(answers: &[Result<(), Error>], output: &mut String) -> Result<(), AllocError> {
    for (index, answer) in answers.iter().enumerate() {
        push_answer(index + 1, answer, output)?;
    }
    Ok(())
}
