//! A message of either side on the stream: a tag, a length, and a body of parts.

ghost use Rattle.std.specs.Prelude.{◌≡◌, length};
ghost use Rattle.pg_base.specs.Tagged.{fault_of, checked_len};

use crate::error::ProtocolFault;
use crate::io::part::Part;
use crate::io::{Encodable, MAX_BODY, Sink};

/// The bytes before a body: the tag and the length.
pub const HEADER: usize = 5;

/// The exact length of parts in bytes, or their first fault, else that of a body that is too long.
#[inline(always)]
pub fn checked_len<P: Part>(parts: &P) -> Result<usize, ProtocolFault>
    ensures { result ≡ checked_len (fault_of (P.part parts.now)) (length (P.part parts.now).text) }
{
    if let Some(fault) = parts.fault() {
        return Err(fault);
    }
    let len = parts.len();
    if len > MAX_BODY {
        return Err(ProtocolFault::MessageTooLong(len.saturating_add(4)));
    }
    Ok(len)
}

/// Parts without a fault under a tag, and their length in bytes.
#[derive(Clone, Copy)]
pub struct Tagged<'a, P> {
    pub tag: u8,
    pub parts: &'a P,
    pub len: usize,
}

impl<P: Part> Encodable for Tagged<'_, P> {
    ghost use Rattle.pg_base.specs.Cutting.{frame};
    ghost use Rattle.pg_base.specs.Tagged.{IsMeasured};

    ghost text = { λ it. frame it.tag (P.part it.parts.now).text };

    ghost can = { λ it. IsMeasured (P.part it.parts.now) it.len };

    ghost IsInRange = { λ it. (P.part it.parts.now).IsInRange };

    #[inline(always)]
    fn put<S: Sink>(&self, sink: &mut S) {
        sink.put_head(self.tag, self.len);
        self.parts.put(sink);
    }
}
