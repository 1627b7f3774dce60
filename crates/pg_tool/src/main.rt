//! Writes and reads PostgreSQL messages that are given as lines of text, and finds them in a stream: the messages of a
//! client's side, and after the word `server` those of a server's side.
#![tactic(auto)]

mod answers;
mod client;
mod digits;
mod fault;
mod frames;
mod lines;
mod numbers;
mod run;
mod server;
mod stream;
mod tagged;
mod text;

use crate::fault::Fault;
use std::env;
use std::process::ExitCode;

fn main(rt: HostRuntime) -> ExitCode {
    let mut errors = rt.stderr();
    let Ok(mut args) = env::args(&rt) else {
        return ExitCode::from(Fault::Input.report(&mut errors));
    };
    // the program's own name
    args.next();
    let Ok(words) = args.collect::<Vec<String>>(rt.alloc()) else {
        return ExitCode::from(Fault::OutOfMemory.report(&mut errors));
    };
    ExitCode::from(run::start(
        rt.alloc(),
        words.as_slice(),
        &mut rt.stdin(),
        &mut rt.stdout(),
        &mut errors,
    ))
}
