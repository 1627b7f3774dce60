//! A reader of messages from a client's stream that comes in pieces.

ghost use Rattle.std.specs.Prelude.{◌≡◌, ◌≢◌, ◌==◌, [], length, None, Ok, OnOk, IfErr, OnErr};
ghost use Rattle.pg_frames.specs.declared.frontend.error.FrontendError.TheVariants.{Protocol, OutOfMemory};
ghost use Rattle.pg_frames.specs.declared.frontend.frame.Expects.TheVariants.{First};
ghost use Rattle.pg_frames.specs.Frame.{IfFound, IfNotFound};
ghost use Rattle.pg_frames.specs.Frontend.Reader.{Takes, IsReaderError, IsFaultIn, WantsMoreIn, WholeIn, awaiting, fed, header};
ghost use Rattle.pg_frames.specs.Reader.{IsFoundUnless, GivesFault};

use crate::block::Block;
use crate::frontend::error::FrontendError;
use crate::frontend::frame::{Expects, FrontendFrame, next_frontend_frame};
use crate::frontend::message::{ClientMessage, ClientMessageKind};
use crate::head::{HEADER, LENGTH};
use std::alloc::{AllocError, Global};
use std::marker::Model;

/// Takes the bytes of a stream from a client in pieces of any length, and hands out its messages, each as
/// soon as its last byte has come. Documentation: "Messaging Overview".
///
/// Its memory is as that of a [`FrameReader`](crate::FrameReader): a body that it hands out shares the block of
/// memory that its bytes were fed into, and no memory is asked for because of a length that a message announces.
#[derive(Drop)]
pub struct FrontendFrameReader {
    limit: usize,
    expects: Expects,
    block: Block,
}

impl Model for FrontendFrameReader {
    ghost use Rattle.pg_frames.specs.Frontend.Reader.{Reading, awaiting};

    ghost Value = { Reading };

    ghost view = { λ reader. awaiting reader.limit reader.expects reader.block };
}

impl FrontendFrameReader {
    /// A reader that was fed nothing, and takes first messages up to this length, which counts itself;
    /// PostgreSQL's own servers take [`MAX_FIRST_LENGTH`](crate::frontend::MAX_FIRST_LENGTH). It takes no memory.
    pub fn new(alloc: Global, limit: usize) -> Self
        ensures { result ≡ awaiting limit First [] }
    {
        FrontendFrameReader {
            limit,
            expects: Expects::First,
            block: Block::new(alloc),
        }
    }

    /// How many bytes were fed and not yet taken.
    pub fn len(&self) -> usize
        ensures { result ≡ length self.now.bytes }
    {
        self.block.len()
    }

    /// Whether all bytes that were fed are taken.
    pub fn is_empty(&self) -> bool
        ensures { result ≡ (length self.now.bytes == 0) }
    {
        self.len() == 0
    }

    /// Which message comes next.
    pub fn expects(&self) -> Expects
        ensures { result ≡ self.now.expects }
    {
        self.expects
    }

    /// Adds the next bytes of the stream, or is out of memory and changes nothing. No bytes need no
    /// memory.
    pub fn feed(&mut self, bytes: &[u8]) -> Result<(), AllocError>
        ensures ok { OnOk result (self.new ≡ fed self.old bytes.now) }
        ensures err { OnErr result (self.new ≡ self.old) }
        ensures some { OnErr result (bytes.now ≢ []) }
    {
        self.block.feed(bytes)
    }

    /// Takes the message at the front of what was fed, or gives `None` where it isn't whole yet.
    ///
    /// Each fault comes as [`next_frontend_frame`](crate::frontend::next_frontend_frame) gives it. A share of the
    /// bytes of a whole message may find that memory ran out. Each error leaves the reader as it was, so
    /// the same call may be made again: after a fault it gives the fault again, and after `OutOfMemory`
    /// it gives the message as soon as there is memory.
    pub fn next_message(&mut self) -> Result<Option<ClientMessage>, FrontendError>
        ensures message { IfFound result (λ message. Takes self.old message self.new) }
        ensures partial { IfNotFound result (WantsMoreIn self.old × (self.new ≡ self.old)) }
        ensures error { IfErr result (IsReaderError self.old) }
        ensures err { OnErr result (self.new ≡ self.old) }

        // Each answer comes wherever it is due.
        ensures whole_due { WholeIn self.old → IsFoundUnless result OutOfMemory }
        ensures partial_due { WantsMoreIn self.old → result ≡ Ok None }
        ensures fault_due { GivesFault result (IsFaultIn self.old) Protocol }
    {
        self.take_next()
    }

    // The same, without that each answer comes wherever it is due.
    fn take_next(&mut self) -> Result<Option<ClientMessage>, FrontendError>
        ensures message { IfFound result (λ message. Takes self.old message self.new) }
        ensures partial { IfNotFound result (WantsMoreIn self.old × (self.new ≡ self.old)) }
        ensures error { IfErr result (IsReaderError self.old) }
        ensures err { OnErr result (self.new ≡ self.old) }
    {
        let stream = self.block.bytes();
        let Some(
            FrontendFrame {
                kind,
                rest,
                next,
                ..
            },
        ) = next_frontend_frame(self.expects, self.limit, stream)?
        else {
            return Ok(None);
        };
        let end = stream.len() - rest.len();
        let contents = self.block.take(header_of(kind), end)?;
        self.expects = next;
        Ok(Some(ClientMessage { kind, contents }))
    }
}

// How many bytes stand before the body of a message.
fn header_of(kind: ClientMessageKind) -> usize
    ensures { result ≡ header kind }
{
    match kind {
        ClientMessageKind::First => LENGTH,
        ClientMessageKind::Tagged(_) => HEADER,
    }
}
