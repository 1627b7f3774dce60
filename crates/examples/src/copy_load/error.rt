//! Why rows aren't loaded.

use pg_message::error::{Error, PgDatabaseError};
use pg_message::message::BackendMessageFormat;
use std::fmt;

/// Why rows aren't loaded.
#[derive(Drop)]
pub enum LoadError {
    /// A message breaks a rule of the protocol, or there was no memory for it.
    Message(Error),
    /// The server reports an error.
    Server(PgDatabaseError),
    /// The server sent a message of a kind that isn't due.
    Unexpected(BackendMessageFormat),
}

impl fmt::Display for LoadError {
    fn fmt<W: fmt::Write>(&self, f: &mut fmt::Formatter<W>) -> fmt::Result {
        match self {
            LoadError::Message(error) => write!(f, "{error}"),
            LoadError::Server(error) => write!(f, "{}: {}", error.code(), error.message()),
            LoadError::Unexpected(format) => write!(f, "unexpected {}", format.name()),
        }
    }
}

impl fmt::Debug for LoadError {
    fn fmt<W: fmt::Write>(&self, f: &mut fmt::Formatter<W>) -> fmt::Result {
        write!(f, "{self}")
    }
}

impl std::error::Error for LoadError {}

impl From<Error> for LoadError {
    fn from(error: Error) -> LoadError {
        LoadError::Message(error)
    }
}
