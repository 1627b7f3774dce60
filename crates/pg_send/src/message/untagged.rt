//! Messages without a tag: parts after the length of it all.

ghost use Rattle.std.specs.Prelude.{◌≡◌, ◌+◌, ◌≤◌, length, IfOk, IfErr, Some, None};
ghost use Rattle.pg_base.specs.BufMut.{prefixed};
ghost use Rattle.pg_base.specs.Cutting.{max_length};
ghost use Rattle.pg_base.specs.Tagged.{fault_of};
ghost use Rattle.pg_send.specs.Untagged.{EncodesUntagged, WritesUntagged};

use pg_base::io::part::Part;
use pg_base::io::{Encodable, Sink, checked_len, write_text};
use pg_base::{Error, ProtocolFault};

/// The length of the whole message, which counts its own four bytes, or the first limit that it breaks.
#[inline]
pub fn untagged_len<P: Part>(parts: &P) -> Result<usize, ProtocolFault>
    ensures sound { IfOk result (λ _. fault_of (P.part parts.now) ≡ None) }
    ensures counts { IfOk result (λ _. (P.part parts.now).fault ≡ None) }
    ensures len { IfOk result (λ len. len ≡ length (P.part parts.now).text + 4) }
    ensures small { IfOk result (λ len. len ≤ max_length) }
    ensures fault { IfErr result (λ fault. fault_of (P.part parts.now) ≡ Some fault) }
{
    let len = checked_len(parts)?;
    Ok(len + 4)
}

/// Adds parts after the length of it all, or refuses them for the first limit that they break, or with
/// `OutOfMemory`.
pub fn encode_untagged<P: Part>(parts: P, buf: &mut Vec<u8>) -> Result<(), Error>
    ensures { EncodesUntagged (P.part parts) buf.old buf.new result }
{
    let len = untagged_len(&parts)?;
    buf.reserve(len)?;
    Untagged { parts, len }.put(buf);
    Ok(())
}

/// Writes parts after the length of it all at the front of `out` where it is that long, and gives that
/// length: a greater one than `out` has says that nothing was written. The first limit that the parts break
/// leaves `out` as it was.
pub fn write_untagged<P: Part>(parts: P, out: &mut [u8]) -> Result<usize, ProtocolFault>
    ensures written { WritesUntagged (P.part parts) out.old out.new result }
    ensures small { IfOk result (λ len. len ≤ max_length) }
{
    let len = untagged_len(&parts)?;
    write_text(&Untagged { parts, len }, len, out);
    Ok(len)
}

/// Parts within the limits, and the length of the whole message in bytes.
#[derive(Clone, Copy)]
pub struct Untagged<P> {
    pub parts: P,
    pub len: usize,
}

impl<P: Part> Encodable for Untagged<P> {
    ghost use Rattle.pg_send.specs.Untagged.{IsUntagged};

    ghost text = { λ it. prefixed (P.part it.parts).text };

    ghost can = { λ it. IsUntagged (P.part it.parts) it.len };

    ghost IsInRange = { λ it. (P.part it.parts).IsInRange };

    #[inline(always)]
    fn put<S: Sink>(&self, sink: &mut S) {
        sink.put_u32(self.len as u32);
        self.parts.put(sink);
    }
}
