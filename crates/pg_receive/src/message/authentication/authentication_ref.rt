//! What the server asks of a client that opens a session, borrowed.

ghost use Rattle.pg_format.specs.Format.{ReadsAs};
ghost use Rattle.pg_receive.specs.Authentication.{requests};
ghost use Rattle.pg_receive.specs.Authentication.Shown.{authentication_borrowed};

use super::{
    AuthenticationMd5Password, AuthenticationSaslContinueRef, AuthenticationSaslFinalRef,
    CLEARTEXT_PASSWORD, MD5_PASSWORD, METHOD_LENGTH, OK, SASL, SASL_CONTINUE, SASL_FINAL,
    SaslMechanisms, md5_password_of,
};
use pg_base::ProtocolFault;
use pg_base::io::u32_at;

/// An [`Authentication`](super::Authentication) that is borrowed from the body of its message. It takes
/// no memory.
#[derive(Drop)]
pub enum AuthenticationRef<'a> {
    /// The client is accepted.
    Ok,
    /// A password is wanted as it is.
    CleartextPassword,
    /// A password is wanted as an MD5 digest.
    Md5Password(AuthenticationMd5Password),
    /// A SASL exchange is wanted, by one of these mechanisms.
    Sasl(SaslMechanisms<'a>),
    /// The challenge in a SASL exchange.
    SaslContinue(AuthenticationSaslContinueRef<'a>),
    /// The server-final-message of a SASL exchange.
    SaslFinal(AuthenticationSaslFinalRef<'a>),
}

impl<'a> AuthenticationRef<'a> {
    /// Reads a body. Its value and its faults are those of [`Authentication`](super::Authentication).
    pub fn read(body: &'a [u8]) -> Result<AuthenticationRef<'a>, ProtocolFault>
        ensures { ReadsAs requests authentication_borrowed body.now result }
    {
        let method = u32_at(body, 0)?;
        let content = &body[METHOD_LENGTH..];
        match method {
            OK => Ok(AuthenticationRef::Ok),
            CLEARTEXT_PASSWORD => Ok(AuthenticationRef::CleartextPassword),
            MD5_PASSWORD => Ok(AuthenticationRef::Md5Password(md5_password_of(body)?)),
            SASL => Ok(AuthenticationRef::Sasl(SaslMechanisms::new(content))),
            SASL_CONTINUE => match AuthenticationSaslContinueRef::read(content) {
                Ok(challenge) => Ok(AuthenticationRef::SaslContinue(challenge)),
                Err(fault) => Err(fault),
            },
            SASL_FINAL => match AuthenticationSaslFinalRef::read(content) {
                Ok(last) => Ok(AuthenticationRef::SaslFinal(last)),
                Err(fault) => Err(fault),
            },
            method => Err(ProtocolFault::UnknownAuthentication(method)),
        }
    }
}
