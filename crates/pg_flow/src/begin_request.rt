//! What a client says before its login is over.

ghost use Rattle.std.specs.Prelude.{◌≡◌};
ghost use Rattle.pg_flow.specs.BeginRequest.{begin_request, opening};

// The codes with which messages without a tag begin, and the version 3 of the protocol.
const CANCEL_REQUEST: [u8; 4] = [4, 210, 22, 46];

const SSL_REQUEST: [u8; 4] = [4, 210, 22, 47];

const GSS_ENC_REQUEST: [u8; 4] = [4, 210, 22, 48];

const VERSION_3: [u8; 2] = [0, 3];

/// The tag that stands for a message without one.
pub const NO_TAG: u8 = 0;

/// What a client says before its login is over.
#[derive(Clone, Copy, Debug, PartialEq, Eq)]
pub enum BeginRequest {
    /// An SSLRequest.
    Ssl,
    /// A GSSENCRequest.
    Gss,
    Startup,
    /// A CancelRequest.
    Cancel,
    /// A message that answers a request for authentication; whether it begins SCRAM, where it is a SASLInitialResponse.
    Response(bool),
}

impl BeginRequest {
    /// The message with this tag, whose body begins with these bytes; of a message without a tag the first four are looked
    /// at, and of a SASLInitialResponse the first six.
    pub fn of(tag: u8, first: &[u8]) -> Option<BeginRequest>
        ensures { result ≡ begin_request tag first.now }
    {
        match tag {
            NO_TAG => opening(first),
            b'p' => Some(BeginRequest::Response(first.starts_with(b"SCRAM-"))),
            _ => None,
        }
    }
}

fn opening(first: &[u8]) -> Option<BeginRequest>
    ensures { result ≡ opening first.now }
{
    if first.starts_with(&SSL_REQUEST) {
        Some(BeginRequest::Ssl)
    } else if first.starts_with(&GSS_ENC_REQUEST) {
        Some(BeginRequest::Gss)
    } else if first.starts_with(&CANCEL_REQUEST) {
        Some(BeginRequest::Cancel)
    } else if first.starts_with(&VERSION_3) {
        Some(BeginRequest::Startup)
    } else {
        None
    }
}
