//! A request for authentication by any method of the documentation, borrowed.

ghost use Rattle.std.specs.Prelude.{◌≡◌};
ghost use Rattle.pg_format.specs.Format.{ReadsAs};
ghost use Rattle.pg_format.specs.Tables.{is_asked_by};
ghost use Rattle.pg_receive.specs.Authentication.Any.{any_requests, any_borrowed};

use super::{
    AuthenticationRef, CLEARTEXT_PASSWORD, MD5_PASSWORD, OK, RawAuthentication, SASL,
    SASL_CONTINUE, SASL_FINAL,
};
use pg_base::ProtocolFault;

// The numbers of the methods that sqlx-postgres doesn't know.
const KERBEROS_V5: u32 = 2;

const SCM_CREDENTIAL: u32 = 6;

const GSS: u32 = 7;

const GSS_CONTINUE: u32 = 8;

const SSPI: u32 = 9;

/// A request for authentication by any method, borrowed from the body of its message. It takes no memory.
/// Documentation: "Message Formats", AuthenticationOk (B) and those after it.
#[derive(Drop)]
pub enum AnyAuthenticationRef<'a> {
    /// One of the methods of [`Authentication`](super::Authentication), or that the client is accepted.
    Known(AuthenticationRef<'a>),
    /// Kerberos V5 is wanted, as of servers before version 9.4.
    KerberosV5,
    /// The credentials of a Unix socket are wanted, as of servers before version 9.1.
    ScmCredential,
    /// An exchange of GSSAPI is wanted.
    Gss,
    /// The next data of an exchange of GSSAPI or SSPI.
    GssContinue(&'a [u8]),
    /// An exchange of SSPI is wanted.
    Sspi,
    /// Any other method, with what follows its number.
    Other { method: u32, content: &'a [u8] },
}

impl<'a> AnyAuthenticationRef<'a> {
    /// Reads a body. The value and the faults of a method of [`AuthenticationRef`] are those that it reads;
    /// any other body is refused only where it has fewer than four bytes, with `Short`.
    pub fn read(body: &'a [u8]) -> Result<AnyAuthenticationRef<'a>, ProtocolFault>
        ensures { ReadsAs any_requests any_borrowed body.now result }
    {
        let RawAuthentication { method, content } = RawAuthentication::read(body)?;
        match method {
            KERBEROS_V5 => Ok(AnyAuthenticationRef::KerberosV5),
            SCM_CREDENTIAL => Ok(AnyAuthenticationRef::ScmCredential),
            GSS => Ok(AnyAuthenticationRef::Gss),
            GSS_CONTINUE => Ok(AnyAuthenticationRef::GssContinue(content)),
            SSPI => Ok(AnyAuthenticationRef::Sspi),
            method if is_known(method) => match AuthenticationRef::read(body) {
                Ok(request) => Ok(AnyAuthenticationRef::Known(request)),
                Err(fault) => Err(fault),
            },
            method => Ok(AnyAuthenticationRef::Other { method, content }),
        }
    }
}

// Whether one of the methods of `AuthenticationRef` has the number.
fn is_known(method: u32) -> bool
    ensures { result ≡ is_asked_by method }
{
    matches!(
        method,
        OK | CLEARTEXT_PASSWORD | MD5_PASSWORD | SASL | SASL_CONTINUE | SASL_FINAL
    )
}
