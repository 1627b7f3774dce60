//! A record of what a server sends: a line of text for each message, without a socket.
//!
//! Hand each piece of the stream to a [`Recorder`], and read [`Recorder::lines`].

mod recorder;

pub use recorder::Recorder;
