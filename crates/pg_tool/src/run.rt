//! A run of the program over any input and output.

use crate::fault::Fault;
use crate::stream::stream;
use crate::text::{read_all, write_text};
use crate::{client, server};
use pg_frames::FrameReader;
use pg_frames::frontend::{FrontendFrameReader, MAX_FIRST_LENGTH};
use std::alloc::Global;
use std::io::{Read, Write};

const USAGE: &str = "usage: pg_tool encode|decode|stream";

const SERVER_USAGE: &str = "usage: pg_tool server encode|decode|stream";

/// The word before the command of a server's side.
const SERVER: &str = "server";

/// The exit status of a wrong argument.
const WRONG_USAGE: u8 = 2;

/// What the program does with its input.
#[derive(Clone, Copy)]
pub enum Task {
    /// Writes messages as their bytes.
    Encode,
    /// Reads bodies by their tags.
    Decode,
    /// Finds the messages in raw bytes.
    Stream,
}

/// Runs the program with the words after its name, and gives its exit status: 0, 1 for a bad line,
/// 2 for wrong arguments, 3 for other faults. A fault is reported on `errors`, and a write that
/// fails there is passed over.
pub fn start<R: Read, W: Write, E: Write>(
    alloc: Global,
    args: &[String],
    input: &mut R,
    output: &mut W,
    errors: &mut E,
) -> u8 {
    let (is_server, usage, task) = match args {
        [] => (false, USAGE, Some(Task::Encode)),
        [side, words @ ..] if side.as_str() == SERVER => (true, SERVER_USAGE, task_of(words)),
        words => (false, USAGE, task_of(words)),
    };
    let Some(task) = task else {
        let _ = writeln!(errors, "{usage}");
        return WRONG_USAGE;
    };
    let run = if is_server {
        run_server(alloc, task, input, output)
    } else {
        run_client(alloc, task, input, output)
    };
    match run {
        Ok(()) => 0,
        Err(fault) => fault.report(errors),
    }
}

// Runs a task of a client's side. `Stream` writes the line of each message as soon as it is whole. The other
// two read all input, and then write all output, and nothing where a line is bad.
fn run_client<R: Read, W: Write>(
    alloc: Global,
    task: Task,
    input: &mut R,
    output: &mut W,
) -> Result<(), Fault> {
    let text = match task {
        Task::Encode => client::encode(alloc, read_all(alloc, input)?.as_slice())?,
        Task::Decode => client::decode(alloc, read_all(alloc, input)?.as_slice())?,
        Task::Stream => return stream(alloc, FrameReader::new(alloc), input, output),
    };
    write_text(output, text.as_str())
}

// The same of a server's side, whose stream begins with a connection.
fn run_server<R: Read, W: Write>(
    alloc: Global,
    task: Task,
    input: &mut R,
    output: &mut W,
) -> Result<(), Fault> {
    let text = match task {
        Task::Encode => server::encode(alloc, read_all(alloc, input)?.as_slice())?,
        Task::Decode => server::decode(alloc, read_all(alloc, input)?.as_slice())?,
        Task::Stream => {
            let messages = FrontendFrameReader::new(alloc, MAX_FIRST_LENGTH);
            return stream(alloc, messages, input, output);
        }
    };
    write_text(output, text.as_str())
}

// The task that one word names.
fn task_of(words: &[String]) -> Option<Task> {
    let [word] = words else {
        return None;
    };
    match word.as_str() {
        "encode" => Some(Task::Encode),
        "decode" => Some(Task::Decode),
        "stream" => Some(Task::Stream),
        _ => None,
    }
}
