//! What a client sends beside the opening of a session: requests for encryption and to cancel, and its
//! part of authentication.

ghost use Rattle.std.specs.Prelude.{◌≡◌, Some, None, option_copied, if◌then◌else◌};
ghost use Rattle.pg_format.specs.Messages as page;
ghost use Rattle.pg_send.specs.GssEncRequest.{gss_enc_request_text};
ghost use Rattle.pg_send.specs.Message as message;
ghost use Rattle.pg_send.specs.SslRequest.{ssl_request_text};
ghost use Rattle.pg_c.specs.Put.{PutsMessage, PutsText};
ghost use Rattle.pg_c.specs.Put.Session.{PutsCancel, sasl_of};

use crate::put::{put, put_text};
use crate::refusal::number_of;
use pg_base::io::part::Slice;
use pg_base::{FrontendMessageFormat, ProtocolFault};
use pg_send::message::composed::Composed;
use pg_send::message::{
    CODE_LENGTH, CancelRequest, GssEncRequest, Password, SaslInitial, SslRequest,
};

/// An SSLRequest: asks for TLS, before the session is opened. The server answers with one byte, `S` or
/// `N`.
#[unsafe(no_mangle)]
pub extern "C" fn pgmsg_put_ssl_request(out: &mut [u8]) -> isize
    ensures { PutsText ssl_request_text None out.old out.new result }
{
    put_text(&SslRequest, CODE_LENGTH, out)
}

/// A GSSENCRequest: asks for encryption by GSSAPI, before the session is opened. The server answers with
/// one byte, `G` or `N`.
#[unsafe(no_mangle)]
pub extern "C" fn pgmsg_put_gss_enc_request(out: &mut [u8]) -> isize
    ensures { PutsText gss_enc_request_text None out.old out.new result }
{
    put_text(&GssEncRequest, CODE_LENGTH, out)
}

/// A CancelRequest: asks the server to stop what a session does, by the process and the key of its
/// BackendKeyData. It goes alone on a connection of its own. The key has 4 bytes in protocol 3.0, and up
/// to 256 from 3.2 on; one of another length is refused with PGMSG_BAD_KEY_LENGTH.
#[unsafe(no_mangle)]
pub extern "C" fn pgmsg_put_cancel_request(
    process_id: u32,
    secret_key: &[u8],
    out: &mut [u8],
) -> isize
    ensures { PutsCancel process_id secret_key.now out.old out.new result }
{
    let cancel = CancelRequest {
        process_id,
        secret_key,
    };
    match cancel.checked_len() {
        Ok(len) => put_text(&cancel, len, out),
        Err(fault) => number_of(fault.into()) as isize,
    }
}

/// A PasswordMessage: answers a request for a password with any bytes, before the NUL that ends them. A
/// password that holds a NUL is refused.
#[unsafe(no_mangle)]
pub extern "C" fn pgmsg_put_password(password: &[u8], out: &mut [u8]) -> isize
    ensures { PutsMessage (message.CleartextPassword password.now) out.old out.new result }
{
    let password = Password::Bytes(password);
    put(&password, out)
}

/// A PasswordMessage that answers a request for an MD5 digest. First take the digest of the password with the user's
/// name after it; `digest` is that of the hexadecimal digits of this one with the salt after them.
#[unsafe(no_mangle)]
pub extern "C" fn pgmsg_put_md5_password(digest: &[u8; 16], out: &mut [u8]) -> isize
    ensures { PutsMessage (message.Md5Password digest.now) out.old out.new result }
{
    let password = Password::Md5 { digest: *digest };
    put(&password, out)
}

/// A SASLInitialResponse: chooses a mechanism of SASL, such as `SCRAM-SHA-256`, and begins it with
/// `response`. Without `has_response` the server begins. A mechanism that holds a NUL is refused.
#[unsafe(no_mangle)]
pub extern "C" fn pgmsg_put_sasl_initial(
    mechanism: &[u8],
    has_response: bool,
    response: &[u8],
    out: &mut [u8],
) -> isize
    ensures { PutsMessage (sasl_of mechanism.now has_response response.now) out.old out.new result }
{
    let sasl = SaslInitial {
        mechanism,
        response: given(has_response, response),
    };
    put(&sasl, out)
}

fn given(is_given: bool, bytes: &[u8]) -> Option<&[u8]>
    ensures { option_copied result ≡ (if is_given then Some bytes.now else None) }
{
    if is_given { Some(bytes) } else { None }
}

/// A SASLResponse: answers a challenge of the SASL exchange. A GSSResponse has the same form.
#[unsafe(no_mangle)]
pub extern "C" fn pgmsg_put_sasl_response(response: &[u8], out: &mut [u8]) -> isize
    ensures { PutsMessage (message.SaslResponse response.now) out.old out.new result }
{
    put(&SaslResponse(response), out)
}

// An answer of any bytes.
#[derive(Drop)]
struct SaslResponse<'a>(&'a [u8]);

impl<'a> Composed for SaslResponse<'a> {
    ghost use Rattle.std.specs.Prelude.{refl};
    ghost use Rattle.pg_send.specs.Message.{law_of};

    type Body = Slice<'a>;

    const FORMAT: FrontendMessageFormat = FrontendMessageFormat::PasswordPolymorphic;

    ghost law = { λ sasl. law_of (message.SaslResponse sasl.0.now) };

    ghost snug = { λ _. refl };

    fn letter(&self) -> u8 {
        <Self as Composed>::FORMAT as u8
    }

    #[inline(always)]
    fn check(&self) -> Result<(), ProtocolFault> {
        Ok(())
    }

    #[inline(always)]
    fn parts(&self) -> Self::Body {
        Slice(self.0)
    }
}
