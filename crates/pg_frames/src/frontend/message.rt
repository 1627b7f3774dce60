//! A message from a client, its first or a later one.

ghost use Rattle.pg_frames.specs.Frontend.Message.{ReadsMessage};

use bytes::Bytes;
use pg_base::FrontendMessageFormat;
use pg_server::frontend::{FirstMessageRef, FrontendFault, FrontendMessageRef};

/// What kind of message a client sent, as its frame says.
#[derive(Clone, Copy, Debug, PartialEq, Eq)]
pub enum ClientMessageKind {
    /// A message without a tag: the first of a stream, or one after a request for encryption.
    First,
    /// A message of this kind, by its tag.
    Tagged(FrontendMessageFormat),
}

impl ClientMessageKind {
    /// Reads the body of a message of this kind: its value and its faults.
    pub fn read(self, body: &[u8]) -> Result<ClientMessageRef<'_>, FrontendFault>
        ensures { ReadsMessage self body.now result }
    {
        match self {
            ClientMessageKind::First => Ok(ClientMessageRef::First(FirstMessageRef::read(body)?)),
            ClientMessageKind::Tagged(format) => {
                Ok(ClientMessageRef::Tagged(FrontendMessageRef::read_as(format, body)?))
            }
        }
    }
}

/// A message from a client, borrowed from its body.
#[derive(Drop)]
pub enum ClientMessageRef<'a> {
    /// One without a tag.
    First(FirstMessageRef<'a>),
    /// One with a tag.
    Tagged(FrontendMessageRef<'a>),
}

/// A message from a client, whose tag and length have been read.
#[derive(Drop)]
pub struct ClientMessage {
    /// The kind, by the tag and by what came before it.
    pub kind: ClientMessageKind,
    /// The body, without tag and length.
    pub contents: Bytes,
}

impl ClientMessage {
    /// Reads the message: its value and its faults.
    pub fn read(&self) -> Result<ClientMessageRef<'_>, FrontendFault>
        ensures { ReadsMessage self.now.kind self.now.contents result }
    {
        self.kind.read(self.contents.as_slice())
    }
}
