//! What a server says before the login of its client is over.

ghost use Rattle.std.specs.Prelude.{◌≡◌};
ghost use Rattle.pg_flow.specs.BeginAnswer.{begin_answer, byte_answer, authentication, step_of};

use crate::transaction_status::TransactionStatus;

/// What a server says before the login of its client is over.
#[derive(Clone, Copy, Debug, PartialEq, Eq)]
pub enum BeginAnswer {
    /// The byte that answers an SSLRequest or a GSSENCRequest; whether the connection is encrypted from there on.
    Encryption(bool),
    /// A NegotiateProtocolVersion.
    Negotiation,
    /// A request for authentication, or a further step of it.
    Authentication(AuthenticationStep),
    /// A notice or a setting.
    Aside,
    /// A BackendKeyData.
    Key,
    /// An ErrorResponse.
    Failure,
    /// A ReadyForQuery.
    Ready(TransactionStatus),
}

/// A step of authentication.
#[derive(Clone, Copy, Debug, PartialEq, Eq)]
pub enum AuthenticationStep {
    /// AuthenticationOk.
    Ok,
    /// Credentials that aren't messages of the protocol are asked for: Kerberos V5 or SCM.
    Outside,
    /// A password is asked for, in clear or as MD5 has it.
    Password,
    /// GSSAPI or SSPI is asked for.
    Gss,
    /// Data of GSSAPI or SSPI.
    GssContinue,
    /// Mechanisms of SASL are offered.
    Sasl,
    /// A challenge of SASL.
    SaslContinue,
    /// The outcome of SASL.
    SaslFinal,
}

impl BeginAnswer {
    /// The message with this tag, whose body begins with these bytes; of a request for authentication the first four are
    /// looked at.
    pub fn of(tag: u8, first: &[u8]) -> Option<BeginAnswer>
        ensures { result ≡ begin_answer tag first.now }
    {
        match tag {
            b'v' => Some(BeginAnswer::Negotiation),
            b'R' => {
                let step = authentication(first)?;
                Some(BeginAnswer::Authentication(step))
            }
            b'N' | b'S' => Some(BeginAnswer::Aside),
            b'K' => Some(BeginAnswer::Key),
            b'E' => Some(BeginAnswer::Failure),
            b'Z' => {
                let status = TransactionStatus::of(first)?;
                Some(BeginAnswer::Ready(status))
            }
            _ => None,
        }
    }

    /// The answer to a request for encryption that says yes by this byte; an error may come in its place.
    pub fn of_byte(agreed: u8, byte: u8) -> Option<BeginAnswer>
        ensures { result ≡ byte_answer agreed byte }
    {
        if byte == agreed {
            Some(BeginAnswer::Encryption(true))
        } else if byte == b'N' {
            Some(BeginAnswer::Encryption(false))
        } else if byte == b'E' {
            Some(BeginAnswer::Failure)
        } else {
            None
        }
    }
}

fn authentication(first: &[u8]) -> Option<AuthenticationStep>
    ensures { result ≡ authentication first.now }
{
    let [a, b, c, code, ..] = first else {
        return None;
    };
    if *a != 0 || *b != 0 || *c != 0 {
        return None;
    }
    step_of(*code)
}

fn step_of(code: u8) -> Option<AuthenticationStep>
    ensures { result ≡ step_of code }
{
    match code {
        0 => Some(AuthenticationStep::Ok),
        2 | 6 => Some(AuthenticationStep::Outside),
        3 | 5 => Some(AuthenticationStep::Password),
        7 | 9 => Some(AuthenticationStep::Gss),
        8 => Some(AuthenticationStep::GssContinue),
        10 => Some(AuthenticationStep::Sasl),
        11 => Some(AuthenticationStep::SaslContinue),
        12 => Some(AuthenticationStep::SaslFinal),
        _ => None,
    }
}
