//! What a cancel request has to name.

ghost use Rattle.pg_base.specs.declared.format.BackendMessageFormat.TheVariants as formats;
ghost use Rattle.pg_format.specs.Format.{ReadsAs};
ghost use Rattle.pg_format.specs.Messages.{backend_key_data, backend_key};
ghost use Rattle.pg_receive.specs.BackendKeyData.{key_shown, raw_key};

use crate::message::BackendMessage;
use bytes::Bytes;
use pg_base::io::u32_at;
use pg_base::{BackendMessageFormat, Error, ProtocolFault};
use std::alloc::Global;

// The bytes of the number of the process.
const PROCESS_LENGTH: usize = 4;

// The least and the greatest length of a key.
const MIN_KEY: usize = 4;

const MAX_KEY: usize = 256;

/// The process that serves this connection, and the secret that a request to cancel its work has
/// to name too. Documentation: "Message Formats", BackendKeyData (B).
#[derive(Clone, Copy, Debug, PartialEq, Eq)]
pub struct BackendKeyData {
    /// The process.
    pub process_id: u32,
    /// The secret.
    pub secret_key: u32,
}

impl BackendKeyData {
    /// Reads the body of a message. Refused with `Short` where it has fewer than eight bytes.
    pub fn read(body: &[u8]) -> Result<BackendKeyData, ProtocolFault>
        ensures { ReadsAs backend_key_data key_shown body.now result }
    {
        let process_id = u32_at(body, 0)?;
        let secret_key = u32_at(body, 4)?;
        Ok(BackendKeyData {
            process_id,
            secret_key,
        })
    }
}

impl BackendMessage for BackendKeyData {
    ghost use Rattle.pg_format.specs.Messages.{BackendKey, backend_key_data};
    ghost use Rattle.pg_format.proofs.FormatLaws.FromServer.{lawful_backend_key_data};

    const FORMAT: BackendMessageFormat = BackendMessageFormat::BackendKeyData;

    ghost FORMAT = { formats.BackendKeyData };

    ghost Shown = { BackendKey };

    ghost shown = { key_shown };

    ghost format = { backend_key_data };

    ghost NeedsNoMemory = { λ _. Unit {0} };

    fn decode_body(_alloc: Global, buf: Bytes) -> Result<Self, Error> {
        Ok(BackendKeyData::read(buf.as_slice())?)
    }

    ghost lawful = { lawful_backend_key_data };
}

/// The process that serves this connection, and a secret of 4 to 256 bytes, as protocol 3.2 has it,
/// borrowed from the body of its message. Documentation: "Message Formats", BackendKeyData (B).
#[derive(Drop)]
pub struct RawKeyData<'a> {
    /// The process.
    pub process_id: u32,
    /// The secret: all that follows the process.
    pub secret_key: &'a [u8],
}

impl<'a> RawKeyData<'a> {
    /// Reads a body. Refused with `Short` where it has fewer than four bytes, and with
    /// `BadKeyLength` where the secret has fewer than 4 or more than 256.
    pub fn read(body: &'a [u8]) -> Result<RawKeyData<'a>, ProtocolFault>
        ensures { ReadsAs backend_key raw_key body.now result }
    {
        let process_id = u32_at(body, 0)?;
        let secret_key = &body[PROCESS_LENGTH..];
        if secret_key.len() < MIN_KEY || secret_key.len() > MAX_KEY {
            return Err(ProtocolFault::BadKeyLength(secret_key.len()));
        }
        Ok(RawKeyData {
            process_id,
            secret_key,
        })
    }
}
