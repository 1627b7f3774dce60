//! Requests for authentication.

ghost use Rattle.std.specs.Prelude.{◌≡◌};
ghost use Rattle.pg_server.specs.Backend.Authentication.{request_of};
ghost use Rattle.pg_server.specs.Backend.Message as messages;

use crate::backend::OutboundMessage;
use crate::backend::outbound_item::OutboundItems;
use crate::backend::sasl::{Mechanisms, SASL};
use pg_base::ProtocolFault;
use pg_base::io::Sink;
use pg_base::io::part::{Byte, Either, Number32, Part, Slice, Then, ThenFirst};
use std::marker::PhantomData;

// The numbers of methods.
const OK: u32 = 0;

const KERBEROS_V5: u32 = 2;

const CLEARTEXT_PASSWORD: u32 = 3;

const MD5_PASSWORD: u32 = 5;

const SCM_CREDENTIAL: u32 = 6;

const GSS: u32 = 7;

const GSS_CONTINUE: u32 = 8;

const SSPI: u32 = 9;

const SASL_CONTINUE: u32 = 11;

const SASL_FINAL: u32 = 12;

/// What a client is asked for, or that it needs no more. Documentation: "Message Formats",
/// AuthenticationOk (B) and those after it.
#[derive(Drop)]
pub enum OutboundAuthentication<'a> {
    /// The client is who it says.
    Ok,
    /// Kerberos V5, as servers before version 9.4 ask.
    KerberosV5,
    /// Its password as it is.
    CleartextPassword,
    /// The MD5 of its password, with this salt.
    Md5Password([u8; 4]),
    /// The credentials of a Unix socket, as servers before version 9.1 ask.
    ScmCredential,
    /// An exchange of GSSAPI.
    Gss,
    /// The next data of an exchange of GSSAPI or SSPI.
    GssContinue(&'a [u8]),
    /// An exchange of SSPI.
    Sspi,
    /// An exchange of SASL by one of these mechanisms, the best first. A name that is empty or holds a
    /// NUL is refused with `TextHoldsNul`.
    Sasl(&'a [&'a [u8]]),
    /// The next of an exchange of SASL.
    SaslContinue(&'a [u8]),
    /// The last of an exchange of SASL.
    SaslFinal(&'a [u8]),
}

/// What follows the number of a method: a salt, the names of mechanisms, or other bytes.
pub type Asked<'a> = Either<Slice<'a>, Either<Salt, Mechanisms<'a, &'a [u8]>>>;

impl<'a> OutboundMessage for OutboundAuthentication<'a> {
    type Body = Then<Number32, Asked<'a>>;

    ghost message = { λ request. messages.Authentication (request_of request) };

    fn tag(&self) -> u8 {
        b'R'
    }

    #[inline(always)]
    fn parts(&self) -> Self::Body {
        let nothing = Either::First(Slice(&[]));
        match self {
            OutboundAuthentication::Ok => Then(Number32(OK), nothing),
            OutboundAuthentication::KerberosV5 => Then(Number32(KERBEROS_V5), nothing),
            OutboundAuthentication::CleartextPassword => Then(
                Number32(CLEARTEXT_PASSWORD),
                nothing,
            ),
            OutboundAuthentication::Md5Password(salt) => Then(
                Number32(MD5_PASSWORD),
                Either::Second(Either::First(Salt(*salt))),
            ),
            OutboundAuthentication::ScmCredential => Then(Number32(SCM_CREDENTIAL), nothing),
            OutboundAuthentication::Gss => Then(Number32(GSS), nothing),
            OutboundAuthentication::GssContinue(content) => {
                Then(Number32(GSS_CONTINUE), Either::First(Slice(content)))
            }
            OutboundAuthentication::Sspi => Then(Number32(SSPI), nothing),
            OutboundAuthentication::Sasl(names) => {
                let names = ThenFirst(OutboundItems(PhantomData, *names), Byte(0));
                Then(Number32(SASL), Either::Second(Either::Second(names)))
            }
            OutboundAuthentication::SaslContinue(content) => {
                Then(Number32(SASL_CONTINUE), Either::First(Slice(content)))
            }
            OutboundAuthentication::SaslFinal(content) => {
                Then(Number32(SASL_FINAL), Either::First(Slice(content)))
            }
        }
    }
}

/// The salt of a digest.
#[derive(Clone, Copy)]
pub struct Salt(pub [u8; 4]);

impl Part for Salt {
    ghost use Rattle.std.specs.Prelude.{◌≡◌, None, length};

    ghost part = { λ it. record { text = it.0; fault = None; IsInRange = length it.0 ≡ 4 } };

    #[inline(always)]
    fn len(&self) -> usize {
        self.0.len()
    }

    #[inline(always)]
    fn fault(&self) -> Option<ProtocolFault> {
        None
    }

    #[inline(always)]
    fn put<S: Sink>(&self, sink: &mut S) {
        sink.put_slice(&self.0);
    }
}
