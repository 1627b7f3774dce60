//! What the messages of the server mean, by how far a session is.

use super::error::SessionError;
use pg_message::message::{
    Authentication, AuthenticationMd5Password, AuthenticationSasl, AuthenticationSaslContinue,
    AuthenticationSaslFinal, BackendMessageFormat, Notification, ServerMessage,
};

/// What the server asks for or reports.
#[derive(Drop)]
pub enum Event {
    /// Asks for `Password::Cleartext`.
    Password,
    /// Asks for `Password::Md5`, a digest with this salt.
    Md5(AuthenticationMd5Password),
    /// Asks for a `SaslInitialResponse`, by one of these mechanisms.
    Sasl(AuthenticationSasl),
    /// Asks for a `SaslResponse` to this challenge.
    SaslChallenge(AuthenticationSaslContinue),
    /// The verifier by which the server shows who it is, for the caller to compare.
    SaslVerifier(AuthenticationSaslFinal),
    /// Asks for the next `Query`, such as one of LISTEN.
    Ready,
    /// A query is done.
    Done,
    /// A notification on a channel that the session listens to.
    Notification(Notification),
}

/// How far a session is.
#[derive(Clone, Copy, Debug, PartialEq, Eq)]
pub enum Stage {
    /// The client shows who it is.
    Authenticating,
    /// The server has accepted the client.
    Accepted,
}

impl Stage {
    /// Takes a message of a kind, and gives what it means where the caller has to know.
    pub fn take(
        &mut self,
        kind: BackendMessageFormat,
        message: ServerMessage,
    ) -> Result<Option<Event>, SessionError> {
        match (*self, message) {
            (_, ServerMessage::ErrorResponse(error)) => Err(SessionError::Server(error)),
            (_, ServerMessage::NoticeResponse(_notice)) => Ok(None),
            (Stage::Authenticating, ServerMessage::Authentication(request)) => {
                Ok(self.take_request(request))
            }
            (Stage::Accepted, ServerMessage::BackendKeyData(_key)) => Ok(None),
            (Stage::Accepted, ServerMessage::ParameterStatus(_setting)) => Ok(None),
            (Stage::Accepted, ServerMessage::ReadyForQuery(_status)) => Ok(Some(Event::Ready)),
            (Stage::Accepted, ServerMessage::CommandComplete(_tag)) => Ok(Some(Event::Done)),
            (Stage::Accepted, ServerMessage::NotificationResponse(notification)) => {
                Ok(Some(Event::Notification(notification)))
            }
            _ => Err(SessionError::Unexpected(kind)),
        }
    }

    fn take_request(&mut self, request: Authentication) -> Option<Event> {
        let event = match request {
            Authentication::Ok => {
                *self = Stage::Accepted;
                return None;
            }
            Authentication::CleartextPassword => Event::Password,
            Authentication::Md5Password(request) => Event::Md5(request),
            Authentication::Sasl(offer) => Event::Sasl(offer),
            Authentication::SaslContinue(challenge) => Event::SaslChallenge(challenge),
            Authentication::SaslFinal(last) => Event::SaslVerifier(last),
        };
        Some(event)
    }
}
