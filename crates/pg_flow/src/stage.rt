//! How far a connection has come.

ghost use Rattle.std.specs.Prelude.{◌≡◌};
ghost use Rattle.pg_flow.specs.Stage.{begin_said, begin_heard, goes_on_or_ends, goes_plainly_on, first_step, next_step, takes_flush, may_leave, is_ready, is_ended};

use crate::begin_answer::{AuthenticationStep, BeginAnswer};
use crate::begin_request::BeginRequest;

/// How far a connection has come, from its first message to its last.
#[derive(Clone, Copy, Debug, PartialEq, Eq)]
pub enum Stage {
    /// A first message of the client is due: whether it has asked for SSL, whether for GSSAPI, and whether the connection
    /// is encrypted.
    Opening(bool, bool, bool),
    /// The byte that answers an SSLRequest is due; whether GSSAPI was asked for.
    SslRequested(bool),
    /// The byte that answers a GSSENCRequest is due; whether SSL was asked for.
    GssRequested(bool),
    /// A CancelRequest was said, which is not answered.
    Cancelled,
    /// The Startup was said, and the server's request for authentication is due.
    Started,
    /// The same, and the server has said which version it speaks.
    Negotiated,
    /// The server has asked for a password.
    PasswordAsked,
    /// The password was said.
    PasswordGiven,
    /// The server has asked for credentials that aren't messages of the protocol.
    OutsideAsked,
    /// The server has asked for GSSAPI or SSPI.
    GssAsked,
    /// Data of GSSAPI or SSPI were said.
    GssGiven,
    /// The server has given data of GSSAPI or SSPI, which the client may have to answer.
    GssContinued,
    /// The server has offered mechanisms of SASL.
    SaslOffered,
    /// The client has begun SCRAM.
    ScramBegun,
    /// The server has given its challenge.
    ScramChallenged,
    /// The client has proved that it knows the password.
    ScramProved,
    /// The client has begun another mechanism, or has answered a challenge of it.
    SaslGiven,
    /// The server has given a challenge of another mechanism.
    SaslChallenged,
    /// The server has given its verifier, or another mechanism's outcome.
    Verified,
    /// The server has accepted the login; whether it has given the key for a CancelRequest.
    Accepted(bool),
    /// The login is over: the client may ask.
    Ready,
    /// The server has said its last words.
    Ended,
}

impl Stage {
    /// Where a message of a client leads that is said before the login is over; `None` where it can't be said now.
    pub fn said(self, message: BeginRequest) -> Option<Stage>
        ensures { result ≡ begin_said self message }
    {
        match (self, message) {
            (Stage::Opening(false, gss, false), BeginRequest::Ssl) => Some(Stage::SslRequested(
                gss,
            )),
            (Stage::Opening(ssl, false, false), BeginRequest::Gss) => Some(Stage::GssRequested(
                ssl,
            )),
            (Stage::Opening(_, _, _), BeginRequest::Startup) => Some(Stage::Started),
            (Stage::Opening(_, _, _), BeginRequest::Cancel) => Some(Stage::Cancelled),
            (Stage::PasswordAsked, BeginRequest::Response(_)) => Some(Stage::PasswordGiven),
            (Stage::GssAsked | Stage::GssContinued, BeginRequest::Response(_)) => {
                Some(Stage::GssGiven)
            }
            (Stage::SaslOffered, BeginRequest::Response(true)) => Some(Stage::ScramBegun),
            (Stage::SaslOffered, BeginRequest::Response(false)) => Some(Stage::SaslGiven),
            (Stage::ScramChallenged, BeginRequest::Response(_)) => Some(Stage::ScramProved),
            (Stage::SaslChallenged, BeginRequest::Response(_)) => Some(Stage::SaslGiven),
            _ => None,
        }
    }

    /// Where a message of a server leads that comes before the login is over; `None` where it can't come now.
    pub fn heard(self, message: BeginAnswer) -> Option<Stage>
        ensures { result ≡ begin_heard self message }
    {
        match self {
            Stage::Opening(_, _, _) | Stage::Cancelled | Stage::Ready | Stage::Ended => None,
            _ => self.heard_while_open(message),
        }
    }

    // The same while the server may speak: an error may come in the place of any message.
    fn heard_while_open(self, message: BeginAnswer) -> Option<Stage>
        ensures { result ≡ goes_on_or_ends self message }
    {
        match message {
            BeginAnswer::Failure => Some(Stage::Ended),
            BeginAnswer::Authentication(step) => match self {
                Stage::Started | Stage::Negotiated => first(step),
                _ => self.authenticated(step),
            },
            _ => self.goes_on(message),
        }
    }

    // The same where it is no error and no step of authentication.
    fn goes_on(self, message: BeginAnswer) -> Option<Stage>
        ensures { result ≡ goes_plainly_on self message }
    {
        match (self, message) {
            (Stage::SslRequested(gss), BeginAnswer::Encryption(is_given)) => {
                Some(Stage::Opening(true, gss, is_given))
            }
            (Stage::GssRequested(ssl), BeginAnswer::Encryption(is_given)) => {
                Some(Stage::Opening(ssl, true, is_given))
            }
            (Stage::Started, BeginAnswer::Negotiation) => Some(Stage::Negotiated),
            (Stage::Accepted(has_key), BeginAnswer::Key) => {
                if has_key {
                    None
                } else {
                    Some(Stage::Accepted(true))
                }
            }
            (Stage::Accepted(has_key), BeginAnswer::Aside) => Some(Stage::Accepted(has_key)),
            (Stage::Accepted(_), BeginAnswer::Ready(_)) => Some(Stage::Ready),
            _ => None,
        }
    }

    /// Whether the login is over, and the session isn't.
    pub fn is_ready(self) -> bool
        ensures { result ≡ is_ready self }
    {
        match self {
            Stage::Ready => true,
            _ => false,
        }
    }

    /// Whether the server has said its last words.
    pub fn is_ended(self) -> bool
        ensures { result ≡ is_ended self }
    {
        match self {
            Stage::Ended => true,
            _ => false,
        }
    }

    /// Where the client may say Flush and nothing else: some drivers do so behind a password.
    pub fn takes_flush(self) -> bool
        ensures { result ≡ takes_flush self }
    {
        match self {
            Stage::PasswordGiven | Stage::Accepted(_) => true,
            _ => false,
        }
    }

    /// Where the client may say Terminate.
    pub fn may_leave(self) -> bool
        ensures { result ≡ may_leave self }
    {
        match self {
            Stage::Opening(_, _, _)
            | Stage::SslRequested(_)
            | Stage::GssRequested(_)
            | Stage::Cancelled => false,
            _ => true,
        }
    }

    // Where a step of authentication leads that isn't the first.
    fn authenticated(self, step: AuthenticationStep) -> Option<Stage>
        ensures { result ≡ next_step self step }
    {
        match (self, step) {
            (
                Stage::PasswordGiven
                | Stage::OutsideAsked
                | Stage::GssGiven
                | Stage::GssContinued
                | Stage::SaslGiven
                | Stage::Verified,
                AuthenticationStep::Ok,
            ) => Some(Stage::Accepted(false)),
            (Stage::GssGiven, AuthenticationStep::GssContinue) => Some(Stage::GssContinued),
            (Stage::ScramBegun, AuthenticationStep::SaslContinue) => Some(Stage::ScramChallenged),
            (Stage::SaslGiven, AuthenticationStep::SaslContinue) => Some(Stage::SaslChallenged),
            (Stage::ScramProved | Stage::SaslGiven, AuthenticationStep::SaslFinal) => {
                Some(Stage::Verified)
            }
            _ => None,
        }
    }
}

// Where the first step of authentication leads.
fn first(step: AuthenticationStep) -> Option<Stage>
    ensures { result ≡ first_step step }
{
    match step {
        AuthenticationStep::Ok => Some(Stage::Accepted(false)),
        AuthenticationStep::Password => Some(Stage::PasswordAsked),
        AuthenticationStep::Outside => Some(Stage::OutsideAsked),
        AuthenticationStep::Gss => Some(Stage::GssAsked),
        AuthenticationStep::Sasl => Some(Stage::SaslOffered),
        _ => None,
    }
}
