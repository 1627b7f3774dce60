//! What a cancel request has to name.

ghost use Rattle.pg_server.specs.Backend.Message.{key_data_of};

use crate::backend::OutboundMessage;
use pg_base::ProtocolFault;
use pg_base::io::Sink;
use pg_base::io::part::{Number32, Part, Then};

// The least and the greatest length of a key.
const MIN_KEY: usize = 4;

const MAX_KEY: usize = 256;

/// The process that serves this connection, and the secret that a request to cancel its work has to
/// name too. Documentation: "Message Formats", BackendKeyData (B).
#[derive(Drop)]
pub struct OutboundBackendKeyData<'a> {
    /// The process.
    pub process_id: u32,
    /// The secret: 4 bytes in protocol 3.0, up to 256 from 3.2 on. Another length is refused with
    /// `BadKeyLength`.
    pub secret_key: &'a [u8],
}

impl<'a> OutboundMessage for OutboundBackendKeyData<'a> {
    type Body = Then<Number32, Key<'a>>;

    ghost message = { λ key. key_data_of key.process_id key.secret_key.now };

    fn tag(&self) -> u8 {
        b'K'
    }

    #[inline(always)]
    fn parts(&self) -> Self::Body {
        Then(Number32(self.process_id), Key(self.secret_key))
    }
}

/// The secret of a session. Another length than 4 to 256 bytes is refused with `BadKeyLength`.
#[derive(Clone, Copy)]
pub struct Key<'a>(pub &'a [u8]);

impl Part for Key<'_> {
    ghost use Rattle.pg_server.specs.Backend.OutboundItem.{key_part};

    ghost part = { λ it. key_part it.0.now };

    #[inline(always)]
    fn len(&self) -> usize {
        self.0.len()
    }

    #[inline(always)]
    fn fault(&self) -> Option<ProtocolFault> {
        let length = self.0.len();
        if length < MIN_KEY || length > MAX_KEY {
            return Some(ProtocolFault::BadKeyLength(length));
        }
        None
    }

    #[inline(always)]
    fn put<S: Sink>(&self, sink: &mut S) {
        sink.put_slice(self.0);
    }
}
