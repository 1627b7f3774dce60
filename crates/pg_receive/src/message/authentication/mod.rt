//! What the server asks of a client that opens a session.

mod any;
mod authentication_ref;
mod base64_bytes;
mod mechanisms;
mod raw;
mod sasl_continue;
mod sasl_final;
mod sasl_items;

ghost use Rattle.std.specs.Prelude.{◌≡◌, ◌≤◌, ℕ, List, length, IfOk, IfErr};
ghost use Rattle.pg_format.specs.Format.Parts.{bytes_of};
ghost use Rattle.pg_format.specs.Format.Places.{IsReadAt, BreaksAt};
ghost use Rattle.pg_format.proofs.FormatLaws.FromServer.{lawful_authentication};
ghost use Rattle.pg_format.proofs.FormatLaws.Sequences.{lawful_viewed};
ghost use Rattle.pg_base.specs.declared.format.BackendMessageFormat.TheVariants as formats;
ghost use Rattle.pg_receive.specs.Authentication.Mechanisms.{mechanisms_in};
ghost use Rattle.pg_receive.specs.Authentication.{AuthenticationValue, value_of, requests, RequestNeedsNoMemory};

use crate::message::BackendMessage;
pub use any::AnyAuthenticationRef;
pub use authentication_ref::AuthenticationRef;
pub use base64_bytes::Base64Bytes;
use bytes::Bytes;
pub use mechanisms::{SaslMechanisms, split_name, split_raw_name};
use pg_base::io::{bytes_at, u32_at};
use pg_base::{BackendMessageFormat, Error, ProtocolFault};
pub use raw::RawAuthentication;
pub use sasl_continue::{AuthenticationSaslContinue, AuthenticationSaslContinueRef};
pub use sasl_final::{AuthenticationSaslFinal, AuthenticationSaslFinalRef};
use std::alloc::Global;
use std::marker::Model;

// The numbers of the methods.
const OK: u32 = 0;

const CLEARTEXT_PASSWORD: u32 = 3;

const MD5_PASSWORD: u32 = 5;

const SASL: u32 = 10;

const SASL_CONTINUE: u32 = 11;

const SASL_FINAL: u32 = 12;

// The bytes of the number of the method.
const METHOD_LENGTH: usize = 4;

const SALT_LENGTH: usize = 4;

/// How the server wants its client to show who it is, or that it has. Documentation: "Message
/// Formats", AuthenticationOk (B) and those after it.
#[derive(Drop)]
pub enum Authentication {
    /// The client is accepted.
    Ok,
    /// A password is wanted as it is.
    CleartextPassword,
    /// A password is wanted as an MD5 digest.
    Md5Password(AuthenticationMd5Password),
    /// A SASL exchange is wanted, by one of the mechanisms.
    Sasl(AuthenticationSasl),
    /// The challenge in a SASL exchange.
    SaslContinue(AuthenticationSaslContinue),
    /// The server-final-message of a SASL exchange.
    SaslFinal(AuthenticationSaslFinal),
}

/// A request for an MD5 digest. Documentation: "Message Formats", AuthenticationMD5Password (B).
#[derive(Debug, Drop)]
pub struct AuthenticationMd5Password {
    /// What the digest is salted with.
    pub salt: [u8; 4],
}

/// A request for a SASL exchange. Documentation: "Message Formats", AuthenticationSASL (B).
#[derive(Drop)]
pub struct AuthenticationSasl(Bytes);

impl Model for AuthenticationSasl {
    ghost Value = { List (List ℕ) };

    ghost view = { λ sasl. mechanisms_in sasl.0 };
}

impl AuthenticationSasl {
    /// The names of the mechanisms that the server offers, in order.
    pub fn mechanisms(&self) -> SaslMechanisms<'_>
        ensures { result ≡ self.now }
    {
        SaslMechanisms::new(self.0.as_slice())
    }
}

impl BackendMessage for Authentication {
    ghost use Rattle.pg_receive.specs.Authentication.Shown.{authentication_shown};

    const FORMAT: BackendMessageFormat = BackendMessageFormat::Authentication;

    ghost FORMAT = { formats.Authentication };

    ghost Shown = { AuthenticationValue };

    ghost shown = { authentication_shown };

    ghost format = { requests };

    ghost NeedsNoMemory = { RequestNeedsNoMemory };

    fn decode_body(alloc: Global, buf: Bytes) -> Result<Self, Error> {
        let body = buf.as_slice();
        match u32_at(body, 0)? {
            OK => Ok(Authentication::Ok),
            CLEARTEXT_PASSWORD => Ok(Authentication::CleartextPassword),
            MD5_PASSWORD => Ok(Authentication::Md5Password(md5_password_of(body)?)),
            SASL => {
                let mut names = buf;
                names.advance(METHOD_LENGTH);
                Ok(Authentication::Sasl(AuthenticationSasl(names)))
            }
            SASL_CONTINUE => {
                let challenge = sasl_continue::decode_challenge(alloc, &body[METHOD_LENGTH..])?;
                Ok(Authentication::SaslContinue(challenge))
            }
            SASL_FINAL => {
                let verifier = sasl_final::decode_verifier(alloc, &body[METHOD_LENGTH..])?;
                Ok(Authentication::SaslFinal(AuthenticationSaslFinal { verifier }))
            }
            method => Err(ProtocolFault::UnknownAuthentication(method).into()),
        }
    }

    ghost lawful = { lawful_viewed value_of lawful_authentication };
}

#[tactic(auto, using(pg_base::proofs::NumbersLemmas::wide_enough))]
fn md5_password_of(body: &[u8]) -> Result<AuthenticationMd5Password, ProtocolFault>
    requires { 4 ≤ length body.now }
    ensures salt { IfOk result (λ password. IsReadAt (bytes_of 4) body.now 4 password.salt 8) }
    ensures short { IfErr result (BreaksAt (bytes_of 4) body.now 4) }
{
    let mut salt = [0; SALT_LENGTH];
    salt.copy_from_slice(bytes_at(body, METHOD_LENGTH, SALT_LENGTH)?);
    Ok(AuthenticationMd5Password { salt })
}
