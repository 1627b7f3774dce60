//! What a client is asked for before its session begins.

ghost use Rattle.std.specs.Prelude.{◌≡◌, option_map};
ghost use Rattle.pg_server.specs.Backend.Authentication as authentication;
ghost use Rattle.pg_c.specs.Server.{PutsServerMessage};
ghost use Rattle.pg_c.specs.Server.Authentication.{requested, PutsRequest};
ghost use Rattle.pg_c.specs.Server.Messages.{sasl_offer_of};

use crate::refusal::UNKNOWN_AUTHENTICATION;
use crate::server::put;
use pg_server::backend::{AsOutboundItem, Mechanism, OutboundAuthentication, OutboundSasl};

// The numbers of methods.
const OK: u32 = 0;

const KERBEROS_V5: u32 = 2;

const CLEARTEXT_PASSWORD: u32 = 3;

const MD5_PASSWORD: u32 = 5;

const SCM_CREDENTIAL: u32 = 6;

const GSS: u32 = 7;

const GSS_CONTINUE: u32 = 8;

const SSPI: u32 = 9;

const SASL_CONTINUE: u32 = 11;

const SASL_FINAL: u32 = 12;

/// Some bytes.
#[repr(C)]
#[derive(Clone, Copy)]
pub struct PgmsgBytes<'a> {
    pub bytes: &'a [u8],
}

impl<'a> AsOutboundItem<&'a [u8]> for PgmsgBytes<'a> {
    ghost item = { λ text. text.bytes };

    #[inline(always)]
    fn as_item(&self) -> &'a [u8] {
        self.bytes
    }
}

impl<'a> AsOutboundItem<Mechanism<'a>> for PgmsgBytes<'a> {
    ghost use Rattle.pg_server.specs.declared.backend.sasl.Mechanism.{Mechanism};

    ghost item = { λ text. record { 0 = text.bytes } };

    #[inline(always)]
    fn as_item(&self) -> Mechanism<'a> {
        Mechanism(self.bytes)
    }
}

/// A request for authentication, by the number of its method and what follows it. 0 says that the client
/// is who it says, and 3 asks for its password as it is: nothing follows. 5 asks for the MD5 digest of its
/// password, with the salt of four bytes that follows. 7 and 9 begin an exchange of GSSAPI or SSPI, and 2 and
/// 6 ask for Kerberos V5 and the credentials of a Unix socket, as servers before versions 9.4 and 9.1 do:
/// nothing follows. 8 is the next of an exchange of GSSAPI or SSPI, 11 and 12 are the next and the last of a
/// SASL exchange, whose data follows; 10 begins one, by `pgmsg_put_authentication_sasl`. Of other numbers, or
/// with another count of bytes, it is refused with PGMSG_UNKNOWN_AUTHENTICATION.
#[unsafe(no_mangle)]
pub extern "C" fn pgmsg_put_authentication(method: u32, content: &[u8], out: &mut [u8]) -> isize
    ensures { PutsRequest method content.now out.old out.new result }
{
    match request_of(method, content) {
        Some(request) => put(&request, out),
        None => UNKNOWN_AUTHENTICATION as isize,
    }
}

// The request by a method, where what follows is as long as it has to be.
fn request_of(method: u32, content: &[u8]) -> Option<OutboundAuthentication<'_>>
    ensures { option_map authentication.request_of result ≡ requested method content.now }
{
    match (method, content) {
        (OK, []) => Some(OutboundAuthentication::Ok),
        (KERBEROS_V5, []) => Some(OutboundAuthentication::KerberosV5),
        (CLEARTEXT_PASSWORD, []) => Some(OutboundAuthentication::CleartextPassword),
        (MD5_PASSWORD, &[a, b, c, d]) => Some(OutboundAuthentication::Md5Password([a, b, c, d])),
        (SCM_CREDENTIAL, []) => Some(OutboundAuthentication::ScmCredential),
        (GSS, []) => Some(OutboundAuthentication::Gss),
        (GSS_CONTINUE, _) => Some(OutboundAuthentication::GssContinue(content)),
        (SSPI, []) => Some(OutboundAuthentication::Sspi),
        (SASL_CONTINUE, _) => Some(OutboundAuthentication::SaslContinue(content)),
        (SASL_FINAL, _) => Some(OutboundAuthentication::SaslFinal(content)),
        _ => None,
    }
}

/// A request for an exchange of SASL by one of these mechanisms, the best first. A name that is empty or
/// holds a NUL is refused as a text that holds a NUL: the client would read other names.
#[unsafe(no_mangle)]
pub extern "C" fn pgmsg_put_authentication_sasl(
    mechanisms: &[PgmsgBytes<'_>],
    out: &mut [u8],
) -> isize
    ensures { PutsServerMessage (sasl_offer_of mechanisms.now) out.old out.new result }
{
    put(&OutboundSasl { mechanisms }, out)
}
