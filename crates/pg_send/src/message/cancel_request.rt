//! A request to stop what a session does.

ghost use Rattle.std.specs.Prelude.{◌≡◌, ◌+◌, ◌≤◌, Some, None, length, IfNone, IfOk, IfErr};
ghost use Rattle.pg_format.specs.Messages.{key_fault};
ghost use Rattle.pg_send.specs.CancelRequest.{cancel_request_text, cancel_request_fields, IsKeyFault};

use crate::message::untagged::Untagged;
use pg_base::io::part::{Number32, Slice, Then};
use pg_base::io::{Encodable, ProtocolEncode, Sink};
use pg_base::{Error, ProtocolFault};

// The length of the whole without its key, in bytes.
const LENGTH: usize = 12;

// What stands in the place of a version: 1234 in the upper two bytes and 5678 in the lower.
const CANCEL_REQUEST: u32 = 80877102;

// The fewest and the most bytes of a key.
const MIN_KEY: usize = 4;

const MAX_KEY: usize = 256;

/// Asks the server to stop what a session does. It has no tag, goes alone on a connection of its
/// own, and has no answer. Documentation: "Message Formats", CancelRequest (F).
#[derive(Drop)]
pub struct CancelRequest<'a> {
    /// The process of the session, as its BackendKeyData says.
    pub process_id: u32,
    /// The key of the session, as its BackendKeyData says: 4 bytes in protocol 3.0, up to 256 from
    /// 3.2 on. Another length is refused with `BadKeyLength`.
    pub secret_key: &'a [u8],
}

impl CancelRequest<'_> {
    /// The length of the message in bytes, or `BadKeyLength`.
    pub fn checked_len(&self) -> Result<usize, ProtocolFault>
        ensures sound { IfOk result (λ _. key_fault (length self.now.secret_key.now) ≡ None) }
        ensures len { IfOk result (λ len. len ≡ length self.now.secret_key.now + 12) }
        ensures fault { IfErr result (IsKeyFault self.now.secret_key.now) }
    {
        let key_len = self.secret_key.len();
        if let Some(fault) = fault_of_key(key_len) {
            return Err(fault);
        }
        Ok(key_len + LENGTH)
    }
}

impl ProtocolEncode for CancelRequest<'_> {
    ghost text = { λ cancel. cancel_request_text (cancel_request_fields cancel) };

    ghost fault = { λ cancel. key_fault (length cancel.secret_key.now) };

    ghost room = { λ cancel. length cancel.secret_key.now + 12 };

    fn encode(&self, buf: &mut Vec<u8>) -> Result<(), Error> {
        let len = self.checked_len()?;
        buf.reserve(len)?;
        self.put(buf);
        Ok(())
    }
}

impl Encodable for CancelRequest<'_> {
    ghost text = { λ cancel. cancel_request_text (cancel_request_fields cancel) };

    ghost can = { λ cancel. key_fault (length cancel.secret_key.now) ≡ None };

    ghost IsInRange = { λ _. Unit {0} };

    #[inline(always)]
    fn put<S: Sink>(&self, sink: &mut S) {
        let parts = Then(
            Number32(CANCEL_REQUEST),
            Then(Number32(self.process_id), Slice(self.secret_key)),
        );
        let len = self.secret_key.len() + LENGTH;
        Untagged { parts, len }.put(sink);
    }
}

// The fault of a key with so many bytes.
fn fault_of_key(length: usize) -> Option<ProtocolFault>
    ensures fault { result ≡ key_fault length }
    ensures small { IfNone result (length ≤ 256) }
{
    if length < MIN_KEY || length > MAX_KEY {
        return Some(ProtocolFault::BadKeyLength(length));
    }
    None
}
