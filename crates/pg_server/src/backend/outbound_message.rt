//! The law of a message to a client, and how each is written.

ghost use Rattle.std.specs.Prelude.{◌≡◌, ◌+◌, ◌≤◌, length, OnOk, IfOk};
ghost use Rattle.pg_base.specs.Cutting.{max_length};
ghost use Rattle.pg_base.specs.Tagged.{checked_len, IsSame};
ghost use Rattle.pg_server.specs.Backend.OutboundMessage.{part_of, Encodes, IsWritten};
ghost use Rattle.pg_server.specs.Backend.Message.{Message, law_of, tag, IsRead, text_len};

use pg_base::io::part::Part;
use pg_base::io::{Encodable, HEADER, Tagged, checked_len, write_text};
use pg_base::{Error, ProtocolFault};

/// A message that a server sends, after a tag and a length.
///
/// A type says by `message` what it is, and of which parts its body is made; the others are written
/// once over them.
pub trait OutboundMessage: Sized + Drop {
    /// The parts of the body.
    type Body: Part;

    /// What it says.
    ghost message: { Self → Message };

    /// The tag, as a byte.
    fn tag(&self) -> u8
        ensures { result ≡ tag (message self.now) };

    /// The parts of the body. The first fault among them, in their order, is that of the message: a list that is
    /// too long to be counted, a text that holds a NUL, or a key of a length that no key has.
    fn parts(&self) -> Self::Body
        ensures { IsSame (Self.Body.part result) (part_of (law_of (message self.now))) };

    /// The exact length of the whole message in bytes, or its first fault: of its parts, in their
    /// order, then of its length.
    final fn checked_len(&self) -> Result<usize, ProtocolFault>
        ensures { result ≡ text_len (message self.now) }
    {
        let len = checked_len(&self.parts())?;
        Ok(len + HEADER)
    }

    /// Adds the whole message to the buffer, as [`encode`] does.
    final fn encode(&self, buf: &mut Vec<u8>) -> Result<(), Error>
        ensures encodes { Encodes (law_of (message self.now)) buf.old buf.new result }
        ensures read { OnOk result (IsRead (message self.now)) }
    {
        encode(self, buf)
    }

    /// Writes the whole message into the caller's bytes, as [`write()`] does.
    final fn write(&self, out: &mut [u8]) -> Result<usize, ProtocolFault>
        ensures written { IsWritten (law_of (message self.now)) out.old out.new result }
        ensures read { IfOk result (λ len. len ≤ length out.old → IsRead (message self.now)) }
    {
        write(self, out)
    }
}

/// Adds tag, length and body of a message to the buffer.
///
/// Every refusal leaves the bytes of the buffer as they were: a fault, exactly where there is one and
/// before memory is asked for, or `OutOfMemory`, only where the spare room doesn't hold the message.
pub fn encode<M: OutboundMessage>(message: &M, buf: &mut Vec<u8>) -> Result<(), Error>
    ensures encodes { Encodes (law_of (M.message message.now)) buf.old buf.new result }
    ensures read { OnOk result (IsRead (M.message message.now)) }
{
    let (tag, parts) = (message.tag(), message.parts());
    let len = checked_len(&parts)?;
    buf.reserve(len + HEADER)?;
    let parts = &parts;
    Tagged { tag, parts, len }.put(buf);
    Ok(())
}

/// Writes tag, length and body of a message at the front of `out` where it is that long, and gives the
/// length of them all: a greater one than `out` has says that nothing was written. A fault leaves
/// `out` as it was.
#[tactic(auto, using(crate::proofs::BackendMessageLemmas::own_message, crate::proofs::BackendMessageLemmas::accepted))]
pub fn write<M: OutboundMessage>(message: &M, out: &mut [u8]) -> Result<usize, ProtocolFault>
    ensures written { IsWritten (law_of (M.message message.now)) out.old out.new result }
    ensures read { IfOk result (λ len. len ≤ length out.old → IsRead (M.message message.now)) }
    ensures small { IfOk result (λ len. len ≤ max_length + 1) }
{
    let (tag, parts) = (message.tag(), message.parts());
    let len = checked_len(&parts)?;
    let parts = &parts;
    write_text(&Tagged { tag, parts, len }, len + HEADER, out);
    Ok(len + HEADER)
}
