//! A session: the bytes to send, and those that came.

ghost use Rattle.std.specs.Prelude.{◌≡◌, [], ◌++◌, IfOk, OnOk, OnErr};
ghost use Rattle.pg_message.specs.Message.{startup_fields, startup_text, text};

use super::error::SessionError;
use super::event::{Event, Stage};
use pg_message::io::ProtocolEncode;
use pg_message::message::{FrameReader, FrontendMessage, ServerMessage, Startup, encode_frame};
use std::alloc::Global;
use std::marker::Model;

/// A session with a server. In a contract it is the list of the bytes to send.
#[derive(Drop)]
pub struct Session {
    alloc: Global,
    output: Vec<u8>,
    reader: FrameReader,
    stage: Stage,
}

impl Model for Session {
    ghost use Rattle.std.specs.Prelude.{ℕ, List};

    ghost Value = { List ℕ };

    ghost view = { λ session. session.output.items };
}

impl Session {
    /// Opens a session: the first message is to be sent.
    pub fn open(alloc: Global, startup: &Startup<'_>) -> Result<Session, SessionError>
        ensures { IfOk result (λ session. session ≡ startup_text (startup_fields startup.now)) }
    {
        let mut output = Vec::new(alloc);
        startup.encode(&mut output)?;
        Ok(Session {
            alloc,
            output,
            reader: FrameReader::new(alloc),
            stage: Stage::Authenticating,
        })
    }

    /// Adds a message to the bytes to send, or leaves them as they are.
    pub fn send<M: FrontendMessage>(&mut self, message: &M) -> Result<(), SessionError>
        ensures ok { OnOk result (self.new ≡ self.old ++ text (M.law message.now)) }
        ensures err { OnErr result (self.new ≡ self.old) }
    {
        Ok(encode_frame(message, &mut self.output)?)
    }

    /// Takes the bytes to send.
    pub fn take_output(&mut self) -> Vec<u8>
        ensures taken { result.items ≡ self.old }
        ensures none_left { self.new ≡ [] }
    {
        std::mem::replace(&mut self.output, Vec::new(self.alloc))
    }

    /// Adds the next bytes that the server sent.
    pub fn feed(&mut self, bytes: &[u8]) -> Result<(), SessionError>
        ensures { self.new ≡ self.old }
    {
        Ok(self.reader.feed(bytes)?)
    }

    /// Gives what the messages that came mean, one event a call, and `None` until more bytes are fed.
    /// After an error other than the server's the session is over.
    pub fn next_event(&mut self) -> Result<Option<Event>, SessionError>
        ensures { self.new ≡ self.old }
    {
        take_event(self.alloc, &mut self.reader, &mut self.stage)
    }
}

// Takes messages up to one that means an event.
fn take_event(
    alloc: Global,
    reader: &mut FrameReader,
    stage: &mut Stage,
) -> Result<Option<Event>, SessionError> {
    while let Some(message) = reader.next_message()? {
        let kind = message.format;
        let event = stage.take(kind, ServerMessage::decode(alloc, message)?)?;
        if event.is_some() {
            return Ok(event);
        }
    }
    Ok(None)
}
