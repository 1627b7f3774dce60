//! The server-final-message of a SASL exchange.

ghost use Rattle.std.specs.Prelude.{ℕ, List};
ghost use Rattle.pg_format.specs.Format.{Means, IsFaultOf, ReadsAs};
ghost use Rattle.pg_format.proofs.FormatLaws.Whole.{one_meaning, meaning_or_fault};
ghost use Rattle.pg_receive.specs.Authentication.SaslFinal.{verifiers, lawful_verifiers, VerifierNeedsNoMemory};
ghost use Rattle.pg_receive.specs.Authentication.Shown.{final_shown};
ghost use Rattle.pg_format.specs.Received.{DecodesBody};

use crate::message::authentication::base64_bytes::Base64Bytes;
use crate::message::authentication::sasl_items::{SaslItems, split_key};
use bytes::Bytes;
use pg_base::io::ProtocolDecode;
use pg_base::{Error, ProtocolFault};
use std::alloc::Global;

const VERIFIER: u8 = b'v';

/// The server-final-message of a SASL exchange, with items as in
/// [`AuthenticationSaslContinue`](super::AuthenticationSaslContinue). Documentation: "Message
/// Formats", AuthenticationSASLFinal (B), and "SCRAM-SHA-256 Authentication".
#[derive(Drop)]
pub struct AuthenticationSaslFinal {
    /// Empty where none is given.
    pub verifier: Vec<u8>,
}

impl ProtocolDecode for AuthenticationSaslFinal {
    ghost Shown = { List ℕ };

    ghost shown = { final_shown };

    ghost Means = { Means verifiers };

    ghost IsFault = { IsFaultOf verifiers };

    ghost NeedsNoMemory = { VerifierNeedsNoMemory };

    fn decode(alloc: Global, buf: Bytes) -> Result<Self, Error> {
        let verifier = decode_verifier(alloc, buf.as_slice())?;
        Ok(AuthenticationSaslFinal { verifier })
    }

    ghost one_value = { one_meaning lawful_verifiers };

    ghost never_both = { meaning_or_fault lawful_verifiers };
}

/// The verifier in the server-final-message that SASL data is.
pub(crate) fn decode_verifier(alloc: Global, body: &[u8]) -> Result<Vec<u8>, Error>
    ensures { DecodesBody verifiers VerifierNeedsNoMemory (λ bytes. bytes.items) body.now result }
{
    let verifier = AuthenticationSaslFinalRef::read(body)?.verifier;
    Ok(verifier.to_vec(alloc)?)
}

/// An [`AuthenticationSaslFinal`] that is borrowed from the data of its message.
#[derive(Drop)]
pub struct AuthenticationSaslFinalRef<'a> {
    /// Empty where none is given.
    pub verifier: Base64Bytes<'a>,
}

impl<'a> AuthenticationSaslFinalRef<'a> {
    /// Reads SASL data, which follows the number of the method. Its value and its faults are those of
    /// [`AuthenticationSaslFinal`].
    pub fn read(data: &'a [u8]) -> Result<AuthenticationSaslFinalRef<'a>, ProtocolFault>
        ensures { ReadsAs verifiers (λ final. final.verifier) «data».now result }
    {
        let mut verifier = Base64Bytes::empty();
        for item in SaslItems::new(data) {
            let (key, value) = split_key(item)?;
            if key == VERIFIER {
                verifier = Base64Bytes::read(value)?;
            }
        }
        Ok(AuthenticationSaslFinalRef { verifier })
    }
}
