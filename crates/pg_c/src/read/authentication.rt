//! What the server asks of a client that opens a session.

ghost use Rattle.std.specs.Prelude.{◌≡◌, ◌≤◌, ◌<ℤ◌, ◌≤ℤ◌, pos, length, OnOk, IfOk, IfErr};
ghost use Rattle.pg_base.specs.declared.error.ProtocolFault.TheVariants.{UnknownAuthentication};
ghost use Rattle.pg_base.specs.Sink.{IsGiven};
ghost use Rattle.pg_receive.specs.Authentication.Raw.{raw_request, raw_request_of};
ghost use Rattle.pg_receive.specs.Authentication.{method_of};
ghost use Rattle.pg_receive.specs.Authentication.Shown.{authentication_borrowed, continue_borrowed};
ghost use Rattle.pg_format.specs.Received.{max_body};
ghost use Rattle.pg_c.specs.Read.Authentication.{offered, ReadsRequest, Challenges, ReadsVerifier, MeansChallenge, MeansVerifier};
ghost use Rattle.pg_c.specs.Read.Authentication.{IsAskedFault};
ghost use Rattle.pg_c.specs.Place.{part};
ghost use Rattle.pg_c.specs.Read.{AreGiven, IfRead, ReadsBody, RefusesBody, LeavesRest};
ghost use Rattle.pg_c.specs.Refusal.{RefusesFor};

use crate::place::PgmsgSpan;
use crate::read::check_body;
use crate::refusal::{PgmsgFault, report};
use pg_base::ProtocolFault;
use pg_receive::message::{
    AuthenticationRef, AuthenticationSaslContinueRef, AuthenticationSaslFinalRef, Base64Bytes,
    RawAuthentication, split_raw_name,
};
use std::alloc::Global;

// The bytes of the number of the method.
const METHOD_LENGTH: usize = 4;

/// What the server asks for, by the number of a method, and what follows it: 0 nothing more, 3 a password
/// in clear, 5 an MD5 digest with the salt of four bytes that follows, 7, 8 and 9 an exchange of GSSAPI or
/// SSPI, 10 SASL by one of the mechanisms that `pgmsg_read_mechanisms` gives, 11 and 12 the next and the
/// last of a SASL exchange.
#[repr(C)]
#[derive(Clone, Copy)]
pub struct PgmsgAuthentication {
    pub method: u32,
    pub content: PgmsgSpan,
}

/// The challenge of a SASL exchange: how long its salt and its nonce are, in bytes.
#[repr(C)]
#[derive(Clone, Copy)]
pub struct PgmsgChallenge {
    pub iterations: u32,
    pub salt_len: usize,
    pub nonce_len: usize,
}

/// What the server asks for, by the body of its Authentication. Any method is read, and what follows its
/// number isn't looked at. 0, or why it is refused.
#[unsafe(no_mangle)]
pub extern "C" fn pgmsg_read_authentication(
    alloc: Global,
    body: &[u8],
    authentication: &mut PgmsgAuthentication,
    fault: &mut PgmsgFault,
) -> i32
    ensures result { result ≤ℤ pos 0 }
    ensures value { result ≡ pos 0 → ReadsRequest body.now authentication.new }
    ensures fault { RefusesBody raw_request body.now fault.old fault.new result }
    ensures left { LeavesRest body.now fault.old fault.new authentication.old authentication.new result }
{
    match request_of(body) {
        Ok(read) => {
            *authentication = PgmsgAuthentication {
                method: read.method,
                content: PgmsgSpan {
                    at: METHOD_LENGTH,
                    len: read.content.len(),
                },
            };
            0
        }
        Err(why) => report(alloc, why.into(), fault),
    }
}

fn request_of(body: &[u8]) -> Result<RawAuthentication<'_>, ProtocolFault>
    ensures { ReadsBody raw_request raw_request_of body.now result }
{
    check_body(body)?;
    RawAuthentication::read(body)
}

/// The mechanisms that the server offers, by the body of an Authentication of method 10: how many there
/// are. As many as there is room for are written.
#[unsafe(no_mangle)]
pub extern "C" fn pgmsg_read_mechanisms(body: &[u8], mechanisms: &mut [PgmsgSpan]) -> usize
    ensures count { result ≡ length (offered body.now) }
    ensures given { AreGiven (part body.now) (offered body.now) mechanisms.old mechanisms.new }
{
    if body.len() < METHOD_LENGTH {
        return 0;
    }
    let mut rest = &body[METHOD_LENGTH..];
    let mut at = METHOD_LENGTH;
    let mut count: usize = 0;
    while let Some((name, after)) = split_raw_name(rest) {
        if count < mechanisms.len() {
            mechanisms[count] = PgmsgSpan {
                at,
                len: name.len(),
            };
        }
        at += name.len() + 1;
        count += 1;
        rest = after;
    }
    count
}

/// The challenge of a SASL exchange, by the body of an Authentication of method 11. Salt and nonce are
/// written where their rooms are long enough. 0, or why it is refused: with PGMSG_NOT_UTF8 where an item
/// isn't UTF-8, which RFC 5802 asks for.
#[unsafe(no_mangle)]
pub extern "C" fn pgmsg_read_challenge(
    alloc: Global,
    body: &[u8],
    challenge: &mut PgmsgChallenge,
    salt: &mut [u8],
    nonce: &mut [u8],
    fault: &mut PgmsgFault,
) -> i32
    ensures result { result ≤ℤ pos 0 }
    ensures value { Challenges body.now challenge.new salt.old salt.new nonce.old nonce.new result }
    ensures fault { RefusesFor (IsAskedFault 11 body.now) fault.old fault.new result }
    ensures left { LeavesRest body.now fault.old fault.new challenge.old challenge.new result }
    ensures salt_kept { result <ℤ pos 0 → salt.new ≡ salt.old }
    ensures nonce_kept { result <ℤ pos 0 → nonce.new ≡ nonce.old }
{
    match challenge_of(body) {
        Ok(read) => {
            *challenge = lengths_of(&read);
            give(&read.salt, salt);
            give_text(read.nonce.as_bytes(), nonce);
            0
        }
        Err(why) => report(alloc, why.into(), fault),
    }
}

fn lengths_of(challenge: &AuthenticationSaslContinueRef<'_>) -> PgmsgChallenge
    ensures iterations { result.iterations ≡ (continue_borrowed challenge.now).iterations }
    ensures salt { result.salt_len ≡ length (continue_borrowed challenge.now).salt }
    ensures nonce { result.nonce_len ≡ length (continue_borrowed challenge.now).nonce }
{
    PgmsgChallenge {
        iterations: challenge.iterations,
        salt_len: challenge.salt.len(),
        nonce_len: challenge.nonce.len(),
    }
}

// Copies bytes to the front of the room where it has that much, and gives their length.
fn give(bytes: &Base64Bytes<'_>, out: &mut [u8]) -> isize
    ensures length { result ≡ pos (length bytes.now) }
    ensures given { IsGiven bytes.now out.old out.new }
{
    if bytes.len() <= out.len() {
        bytes.copy_to(&mut out[..bytes.len()]);
    }
    bytes.len() as isize
}

// Copies a text to the front of the room where it has that much.
fn give_text(text: &[u8], out: &mut [u8])
    ensures { IsGiven text.now out.old out.new }
{
    if text.len() <= out.len() {
        out[..text.len()].copy_from_slice(text);
    }
}

fn challenge_of(body: &[u8]) -> Result<AuthenticationSaslContinueRef<'_>, ProtocolFault>
    ensures value { IfOk result (λ read. MeansChallenge body.now (continue_borrowed read)) }
    ensures within { OnOk result (length body.now ≤ max_body) }
    ensures fault { IfErr result (IsAskedFault 11 body.now) }
{
    check_body(body)?;
    match AuthenticationRef::read(body) {
        Ok(AuthenticationRef::SaslContinue(challenge)) => Ok(challenge),
        Ok(other) => Err(unexpected(&other)),
        Err(fault) => Err(fault),
    }
}

/// The verifier that ends a SASL exchange, by the body of an Authentication of method 12: its length in
/// bytes. It is written where its room is that long.
#[unsafe(no_mangle)]
pub extern "C" fn pgmsg_read_verifier(
    alloc: Global,
    body: &[u8],
    verifier: &mut [u8],
    fault: &mut PgmsgFault,
) -> isize
    ensures value { IfRead result (ReadsVerifier body.now verifier.old verifier.new) }
    ensures fault { RefusesFor (IsAskedFault 12 body.now) fault.old fault.new result }
    ensures left { LeavesRest body.now fault.old fault.new verifier.old verifier.new result }
{
    match verifier_of(body) {
        Ok(end) => give(&end.verifier, verifier),
        Err(why) => report(alloc, why.into(), fault) as isize,
    }
}

fn verifier_of(body: &[u8]) -> Result<AuthenticationSaslFinalRef<'_>, ProtocolFault>
    ensures value { IfOk result (λ end. MeansVerifier body.now end.verifier) }
    ensures within { OnOk result (length body.now ≤ max_body) }
    ensures fault { IfErr result (IsAskedFault 12 body.now) }
{
    check_body(body)?;
    match AuthenticationRef::read(body) {
        Ok(AuthenticationRef::SaslFinal(end)) => Ok(end),
        Ok(other) => Err(unexpected(&other)),
        Err(fault) => Err(fault),
    }
}

// What was asked is not what the caller reads.
fn unexpected(asked: &AuthenticationRef<'_>) -> ProtocolFault
    ensures { result ≡ UnknownAuthentication (method_of (authentication_borrowed asked.now)) }
{
    let method = match asked {
        AuthenticationRef::Ok => 0,
        AuthenticationRef::CleartextPassword => 3,
        AuthenticationRef::Md5Password(_) => 5,
        AuthenticationRef::Sasl(_) => 10,
        AuthenticationRef::SaslContinue(_) => 11,
        AuthenticationRef::SaslFinal(_) => 12,
    };
    ProtocolFault::UnknownAuthentication(method)
}
