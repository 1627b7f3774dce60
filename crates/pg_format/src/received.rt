//! What a message from a server is, and its decoding by kind.

ghost use Rattle.std.specs.Prelude.{◌≡◌, ◌≤◌, ℕ, List, length};
ghost use Rattle.pg_base.specs.declared.format.BackendMessageFormat.{BackendMessageFormat};
ghost use Rattle.pg_format.specs.Format.{Format, Lawful};
ghost use Rattle.pg_format.specs.Received.{error_while_reading, DecodesBody};

use bytes::Bytes;
use pg_base::io::MAX_BODY;
use pg_base::{BackendMessageFormat, Error, ProtocolFault};
use std::alloc::Global;

/// A message that a server sends, after a tag and a length.
pub trait BackendMessage: Sized {
    /// The kind of message.
    const FORMAT: BackendMessageFormat;

    ghost FORMAT: { BackendMessageFormat };

    /// The value without where it lies in memory.
    ghost Shown: { Type 0 };

    ghost shown: { Self → Shown };
    /// What a body means, and what is wrong with one that means nothing: the first test that fails.
    ghost format: { Format Shown };
    /// That a body is read without asking for memory.
    ghost NeedsNoMemory: { List ℕ → Type 0 };

    /// Reads a body of at most [`MAX_BODY`] bytes: a value, only if the body means it; a fault of
    /// the body, only if it means none; or `OutOfMemory`.
    fn decode_body(alloc: Global, buf: Bytes) -> Result<Self, Error>
        requires { length buf ≤ MAX_BODY }
        ensures { DecodesBody format NeedsNoMemory shown buf result };

    /// A body means one value, or has one fault, never both.
    ghost lawful: { Lawful format };
}

/// A message from the server, whose tag and length have been read.
#[derive(Drop)]
pub struct ReceivedMessage {
    /// The kind, by the tag.
    pub format: BackendMessageFormat,
    /// The body, without tag and length.
    pub contents: Bytes,
}

impl ReceivedMessage {
    ghost use Rattle.pg_format.specs.Received.Message.{DecodesMessage};

    /// Reads the message as a `T`.
    ///
    /// It is `WrongFormat` where this is a message of another kind, then `BodyTooLong` where the
    /// body has more than [`MAX_BODY`] bytes. Else it is what `decode_body` gives, and a fault of
    /// the body names the kind of message.
    // Inlined, so that neither the message nor the answer is copied on its way.
    #[inline(always)]
    pub fn decode<T: BackendMessage>(self, alloc: Global) -> Result<T, Error>
        ensures { DecodesMessage T.BackendMessage self result }
    {
        if T::FORMAT != self.format {
            return Err(ProtocolFault::WrongFormat {
                expected: T::FORMAT,
                got: self.format,
            }
            .into());
        }
        if self.contents.len() > MAX_BODY {
            return Err(ProtocolFault::BodyTooLong(self.contents.len()).into());
        }
        T::decode_body(alloc, self.contents).map_err(|error| while_reading(self.format, error))
    }
}

// Names the kind of message in a fault of its body.
fn while_reading(format: BackendMessageFormat, error: Error) -> Error
    ensures { result ≡ error_while_reading format error }
{
    match error {
        Error::Protocol { fault, .. } => Error::Protocol {
            reading: Some(format),
            fault,
        },
        Error::OutOfMemory => Error::OutOfMemory,
    }
}
