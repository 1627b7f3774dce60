//! What is written to a buffer.

ghost use Rattle.std.specs.Prelude.{ℕ, List, Option};
ghost use Rattle.pg_base.specs.declared.error.ProtocolFault.{ProtocolFault};
ghost use Rattle.pg_base.specs.Encode.{Encodes};

use crate::error::Error;

/// What is written to a buffer as a whole or not at all.
pub trait ProtocolEncode {
    /// The bytes that are added.
    ghost text: { Self → List ℕ };
    /// The limit that the value breaks, where it breaks one.
    ghost fault: { Self → Option ProtocolFault };
    /// With this much spare room, in bytes, no memory is asked for.
    ghost room: { Self → ℕ };

    /// Adds the value to the buffer. Every refusal leaves the bytes of the buffer as they were: a
    /// broken limit, exactly where there is one, or `OutOfMemory`, only where the room was short.
    fn encode(&self, buf: &mut Vec<u8>) -> Result<(), Error>
        ensures { Encodes (text self.now) (fault self.now) (room self.now) buf.old buf.new result };
}
