//! A reader of messages from a stream that comes in pieces.

ghost use Rattle.std.specs.Prelude.{◌≡◌, ◌≢◌, ◌==◌, [], ◌++◌, length, None, Ok, OnOk, IfErr, OnErr, IsOkUnless};
ghost use Rattle.pg_base.specs.declared.error.Error.TheVariants.{Protocol, OutOfMemory};
ghost use Rattle.pg_frames.specs.Frame.{IfFound, IfNotFound};
ghost use Rattle.pg_frames.specs.Reader.{TakesMessage, IsFoundUnless, GivesFault};
ghost use Rattle.pg_frames.specs.Stream.{TakesAtLeast, Whole, WantsMore, IsStreamFault, IsReaderError};

use crate::block::Block;
use crate::frame::{Frame, next_frame};
use crate::head::{FrameHead, HEADER, MIN_LENGTH};
use pg_base::Error;
use pg_format::ReceivedMessage;
use std::alloc::Global;
use std::marker::Model;

/// Takes the bytes of a stream from the server in pieces of any length, and hands out its messages,
/// each as soon as its last byte has come. In a contract it is the list of the bytes that were fed
/// and not yet taken. Documentation: "Messaging Overview".
///
/// A body that it hands out shares the block of memory that its bytes were fed into, and keeps that
/// block until it is dropped. The reader asks for memory as bytes are fed and never for a length that
/// a message announces, so it holds at most twice what it was fed and hasn't handed out, and the
/// block that it fills. It uses a block again once no body shares it. What is left after the last
/// whole message is copied at most once when more is fed. It keeps a block of up to 64 KiB. A larger
/// one it gives back as soon as all is handed out and, since all was handed out before, it held 64 KiB
/// at most. It keeps how long the message at the front is, so that it needn't look at it at each piece. No
/// clause says how the reader uses memory and time; tests see when it asks for memory and gives it back.
#[derive(Drop)]
pub struct FrameReader {
    block: Block,
    // How many bytes the message at the front takes at least.
    least: usize,
}

impl Model for FrameReader {
    ghost use Rattle.std.specs.Prelude.{ℕ, List};
    ghost use Rattle.pg_frames.specs.Stream.{TakesAtLeast};

    ghost Value = { List ℕ };

    ghost view = { λ reader. reader.block };

    ghost invariant = { λ reader. TakesAtLeast reader.block reader.least };
}

impl FrameReader {
    /// A reader that was fed nothing. It takes no memory.
    pub fn new(alloc: Global) -> Self
        ensures { result ≡ [] }
    {
        FrameReader {
            block: Block::new(alloc),
            least: HEADER,
        }
    }

    /// How many bytes were fed and not yet taken.
    pub fn len(&self) -> usize
        ensures { result ≡ length self.now }
    {
        self.block.len()
    }

    /// Whether all bytes that were fed are taken.
    pub fn is_empty(&self) -> bool
        ensures { result ≡ (length self.now == 0) }
    {
        self.len() == 0
    }

    /// Adds the next bytes of the stream, or is `OutOfMemory` and changes nothing. No bytes need no
    /// memory.
    #[inline(always)]
    #[tactic(auto, using(crate::proofs::StreamLemmas::just_stays))]
    pub fn feed(&mut self, bytes: &[u8]) -> Result<(), Error>
        ensures ok { OnOk result (self.new ≡ self.old ++ bytes.now) }
        ensures err { OnErr result (self.new ≡ self.old) }
        ensures memory { IsOkUnless result OutOfMemory }
        ensures some { OnErr result (bytes.now ≢ []) }
    {
        Ok(self.block.feed(bytes)?)
    }

    /// Takes the message at the front of what was fed, or gives `None` where it isn't whole yet.
    ///
    /// Once five bytes are there, a tag that no message from a server has is `UnknownMessageType`,
    /// and then a length below 4 is `BadLength`. A share of the bytes of a whole message may find
    /// that memory ran out. Each error leaves the reader as it was, so the same call may be made
    /// again: after a fault it gives the fault again, and after `OutOfMemory` it gives the message
    /// as soon as there is memory.
    // Inlined, so that the message isn't copied on its way.
    #[inline(always)]
    pub fn next_message(&mut self) -> Result<Option<ReceivedMessage>, Error>
        ensures message { IfFound result (λ message. TakesMessage self.old message self.new) }
        ensures partial { IfNotFound result (WantsMore self.old × (self.new ≡ self.old)) }
        ensures error { IfErr result (IsReaderError self.old) }
        ensures err { OnErr result (self.new ≡ self.old) }

        // Each answer comes wherever it is due.
        ensures whole_due { Whole self.old → IsFoundUnless result OutOfMemory }
        ensures partial_due { WantsMore self.old → result ≡ Ok None }
        ensures fault_due { GivesFault result (IsStreamFault self.old) (Protocol None) }
    {
        if self.block.len() < self.least {
            return Ok(None);
        }
        self.take_next()
    }

    // The same, without that each answer comes wherever it is due.
    #[inline(always)]
    #[tactic(auto, using(crate::proofs::StreamLemmas::taken))]
    fn take_next(&mut self) -> Result<Option<ReceivedMessage>, Error>
        ensures message { IfFound result (λ message. TakesMessage self.old message self.new) }
        ensures partial { IfNotFound result (WantsMore self.old × (self.new ≡ self.old)) }
        ensures error { IfErr result (IsReaderError self.old) }
        ensures err { OnErr result (self.new ≡ self.old) }
    {
        let stream = self.block.bytes();
        let Some(Frame { format, rest, .. }) = next_frame(stream)? else {
            self.least = least_of(stream);
            return Ok(None);
        };
        let end = stream.len() - rest.len();
        let contents = self.block.take(HEADER, end)?;
        self.least = HEADER;
        Ok(Some(ReceivedMessage { format, contents }))
    }
}

// How many bytes the message takes at least of which these are too few.
#[inline(always)]
#[tactic(auto, using(crate::proofs::StreamLemmas::takes_announced))]
fn least_of(stream: &[u8]) -> usize
    requires { WantsMore stream.now }
    ensures { TakesAtLeast stream.now result }
{
    match FrameHead::of(stream) {
        Some(head) if head.announced >= MIN_LENGTH => 1 + head.announced as usize,
        _ => HEADER,
    }
}
