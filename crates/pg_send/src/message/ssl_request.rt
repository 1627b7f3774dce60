//! A request for an encrypted connection.

ghost use Rattle.std.specs.Prelude.{◌≡◌, ◌+◌, ◌≤◌, ◌++◌, None};
ghost use Rattle.pg_base.specs.Encode.{Encodes};
ghost use Rattle.pg_send.specs.SslRequest.{code_text, ssl_request_text};
ghost use Rattle.pg_base.specs.Sink.{HasRoom};

use pg_base::Error;
use pg_base::io::{Encodable, ProtocolEncode, Sink};

/// The length of a message that is a code alone, in bytes.
pub const CODE_LENGTH: usize = 8;

// What stands in the place of a version: 1234 in the upper two bytes and 5679 in the lower.
const SSL_REQUEST: u32 = 80877103;

/// Asks the server for an encrypted connection. It has no tag, and the server answers with one
/// byte. Documentation: "Message Formats", SSLRequest (F).
#[derive(Drop)]
pub struct SslRequest;

impl ProtocolEncode for SslRequest {
    ghost text = { λ _. ssl_request_text };

    ghost fault = { λ _. None };

    ghost room = { λ _. 8 };

    fn encode(&self, buf: &mut Vec<u8>) -> Result<(), Error> {
        encode_code(SSL_REQUEST, buf)
    }
}

impl Encodable for SslRequest {
    ghost text = { λ _. ssl_request_text };

    ghost can = { λ _. Unit {0} };

    ghost IsInRange = { λ _. Unit {0} };

    #[inline(always)]
    fn put<S: Sink>(&self, sink: &mut S) {
        put_code(SSL_REQUEST, sink);
    }
}

/// Adds a message without a tag that is a code alone, in the place of a version. The only refusal is
/// `OutOfMemory`.
pub fn encode_code(code: u32, buf: &mut Vec<u8>) -> Result<(), Error>
    ensures { Encodes (code_text code) None 8 buf.old buf.new result }
{
    buf.reserve(CODE_LENGTH)?;
    put_code(code, buf);
    Ok(())
}

/// The same in room that is there.
#[inline(always)]
pub fn put_code<S: Sink>(code: u32, sink: &mut S)
    requires { HasRoom (S.capacity sink.old) (S.written sink.old) (code_text code) }
    ensures written { S.written sink.new ≡ S.written sink.old ++ code_text code }
    ensures capacity { S.capacity sink.old ≤ S.capacity sink.new }
    ensures loan { S.loan sink.new ≡ S.loan sink.old }
{
    sink.put_u32(CODE_LENGTH as u32);
    sink.put_u32(code);
}
