//! A request for a connection that GSSAPI encrypts.

ghost use Rattle.std.specs.Prelude.{None};
ghost use Rattle.pg_send.specs.GssEncRequest.{gss_enc_request_text};

use crate::message::ssl_request::{encode_code, put_code};
use pg_base::Error;
use pg_base::io::{Encodable, ProtocolEncode, Sink};

// What stands in the place of a version: 1234 in the upper two bytes and 5680 in the lower.
const GSS_ENC_REQUEST: u32 = 80877104;

/// Asks the server for a connection that GSSAPI encrypts. It has no tag, and the server answers
/// with one byte. Documentation: "Message Formats", GSSENCRequest (F).
#[derive(Drop)]
pub struct GssEncRequest;

impl ProtocolEncode for GssEncRequest {
    ghost text = { λ _. gss_enc_request_text };

    ghost fault = { λ _. None };

    ghost room = { λ _. 8 };

    fn encode(&self, buf: &mut Vec<u8>) -> Result<(), Error> {
        encode_code(GSS_ENC_REQUEST, buf)
    }
}

impl Encodable for GssEncRequest {
    ghost text = { λ _. gss_enc_request_text };

    ghost can = { λ _. Unit {0} };

    ghost IsInRange = { λ _. Unit {0} };

    #[inline(always)]
    fn put<S: Sink>(&self, sink: &mut S) {
        put_code(GSS_ENC_REQUEST, sink);
    }
}
