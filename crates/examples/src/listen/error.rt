//! Why a call of a session gives no answer.

use pg_message::error::{Error, PgDatabaseError};
use pg_message::message::BackendMessageFormat;
use std::fmt;

/// Why a call of a session gives no answer.
#[derive(Drop)]
pub enum SessionError {
    /// A message breaks a rule of the protocol, or there was no memory for it.
    Message(Error),
    /// The server reports an error.
    Server(PgDatabaseError),
    /// The server sent a message of a kind that isn't due.
    Unexpected(BackendMessageFormat),
}

impl fmt::Display for SessionError {
    fn fmt<W: fmt::Write>(&self, f: &mut fmt::Formatter<W>) -> fmt::Result {
        match self {
            SessionError::Message(error) => write!(f, "{error}"),
            SessionError::Server(error) => write!(f, "{}: {}", error.code(), error.message()),
            SessionError::Unexpected(format) => write!(f, "unexpected {}", format.name()),
        }
    }
}

impl fmt::Debug for SessionError {
    fn fmt<W: fmt::Write>(&self, f: &mut fmt::Formatter<W>) -> fmt::Result {
        write!(f, "{self}")
    }
}

impl std::error::Error for SessionError {}

impl From<Error> for SessionError {
    fn from(error: Error) -> SessionError {
        SessionError::Message(error)
    }
}
