//! What is read from a body.

ghost use Rattle.std.specs.Prelude.{◌≤◌, ℕ, List, None, length};
ghost use Rattle.pg_base.specs.declared.error.ProtocolFault.{ProtocolFault};
ghost use Rattle.pg_base.specs.Decode.{Decodes, MeansOne, NeverBoth};

use crate::error::Error;
use crate::io::MAX_BODY;
use bytes::Bytes;
use std::alloc::Global;

/// What is read from a body.
pub trait ProtocolDecode: Sized {
    /// The value without where it lies in memory.
    ghost Shown: { Type 0 };

    ghost shown: { Self → Shown };
    /// Which value a body means.
    ghost Means: { List ℕ → Shown → Type 0 };
    /// What is wrong with a body that means none.
    ghost IsFault: { List ℕ → ProtocolFault → Type 0 };
    /// That a body is read without asking for memory.
    ghost NeedsNoMemory: { List ℕ → Type 0 };

    /// Reads a body of at most [`MAX_BODY`] bytes. A refusal is a fault of the body, or
    /// `OutOfMemory`.
    fn decode(alloc: Global, buf: Bytes) -> Result<Self, Error>
        requires { length buf ≤ MAX_BODY }
        ensures { Decodes Means IsFault NeedsNoMemory shown None buf result };

    /// A body means one value.
    ghost one_value: { MeansOne Means };
    /// A body with a value has no fault.
    ghost never_both: { NeverBoth Means IsFault };
}
