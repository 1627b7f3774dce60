//! An error of the server.

ghost use Rattle.std.specs.Prelude.{◌≡◌, Some, None, option_copied, option_map};
ghost use Rattle.pg_base.specs.declared.format.BackendMessageFormat.TheVariants as formats;
ghost use Rattle.pg_receive.specs.Response.Fields.{first_text};
ghost use Rattle.pg_receive.specs.Response.{NoticeValue, notices};
ghost use Rattle.pg_format.proofs.FormatLaws.FromServer.{lawful_notice};
ghost use Rattle.pg_format.proofs.FormatLaws.Sequences.{lawful_viewed};
ghost use Rattle.pg_receive.specs.DatabaseError.{first_number, position_of, kind_of, is_transient, database_error_words};
ghost use Rattle.pg_receive.specs.Response.Letters.{detail_letter, hint_letter, where_letter, schema_letter, table_letter, column_letter, data_type_letter, constraint_letter, file_letter, line_letter, routine_letter};

use crate::message::response::letters;
use crate::message::{BackendMessage, Notice, PgSeverity, leading_usize};
use bytes::Bytes;
use pg_base::{BackendMessageFormat, Error, ErrorKind};
use std::alloc::Global;
use std::fmt;
use std::marker::Model;

/// The codes that [`PgDatabaseError::kind`] knows. Documentation: "PostgreSQL
/// Error Codes", class 23.
pub mod error_codes {
    /// A unique or primary key is violated.
    pub const UNIQUE_VIOLATION: &str = "23505";
    /// A foreign key is violated.
    pub const FOREIGN_KEY_VIOLATION: &str = "23503";
    /// A column that takes no null is given one.
    pub const NOT_NULL_VIOLATION: &str = "23502";
    /// A check constraint is violated.
    pub const CHECK_VIOLATION: &str = "23514";
    /// An exclusion constraint is violated.
    pub const EXCLUSION_VIOLATION: &str = "23P01";
}

const TOO_MANY_CONNECTIONS: &str = "53300";

// The server is still starting.
const CANNOT_CONNECT_NOW: &str = "57P03";

/// Where in a query an error was found. Positions count characters from 1.
#[derive(Debug, Drop, PartialEq, Eq)]
pub enum PgErrorPosition<'a> {
    /// In the query of the client.
    Original(usize),
    /// In a query that the server made, and that query.
    Internal { position: usize, query: &'a str },
}

/// An error that the server reports. Documentation: "Message Formats", ErrorResponse (B).
///
/// Its body is that of a [`Notice`]. An accessor of a text answers the first field of its letter,
/// or `None` if that is missing or isn't UTF-8. Documentation: "Error and Notice Message Fields".
#[derive(Drop)]
pub struct PgDatabaseError(Notice);

impl Model for PgDatabaseError {
    ghost Value = { NoticeValue };

    ghost view = { λ error. error.0 };
}

impl PgDatabaseError {
    ghost use Rattle.pg_receive.specs.DatabaseError.Position.{position_shown};

    /// As [`Notice::severity`].
    pub fn severity(&self) -> PgSeverity
        ensures { result ≡ self.now.severity }
    {
        self.0.severity()
    }

    /// As [`Notice::code`].
    pub fn code(&self) -> &str
        ensures { result.now ≡ self.now.code }
    {
        self.0.code()
    }

    /// As [`Notice::message`].
    pub fn message(&self) -> &str
        ensures { result.now ≡ self.now.message }
    {
        self.0.message()
    }

    /// The problem in more words, maybe on several lines.
    pub fn detail(&self) -> Option<&str>
        ensures { option_copied result ≡ first_text detail_letter self.now.fields }
    {
        self.0.get(letters::DETAIL)
    }

    /// Advice on how to solve it.
    pub fn hint(&self) -> Option<&str>
        ensures { option_copied result ≡ first_text hint_letter self.now.fields }
    {
        self.0.get(letters::HINT)
    }

    /// Where in a query the error was found: in the client's where `P` has a number, else in one of
    /// the server's where `p` has a number and `q` the query.
    pub fn position(&self) -> Option<PgErrorPosition<'_>>
        ensures { option_map position_shown result ≡ position_of self.now.fields }
    {
        if let Some(position) = self.number(letters::POSITION) {
            return Some(PgErrorPosition::Original(position));
        }
        Some(PgErrorPosition::Internal {
            position: self.number(letters::INTERNAL_POSITION)?,
            query: self.0.get(letters::INTERNAL_QUERY)?,
        })
    }

    /// The calls that led to the error, each on a line of its own. The underscore keeps the name
    /// apart from the keyword.
    pub fn where_(&self) -> Option<&str>
        ensures { option_copied result ≡ first_text where_letter self.now.fields }
    {
        self.0.get(letters::WHERE)
    }

    /// The schema of what the error is about.
    pub fn schema(&self) -> Option<&str>
        ensures { option_copied result ≡ first_text schema_letter self.now.fields }
    {
        self.0.get(letters::SCHEMA)
    }

    /// The table that the error is about.
    pub fn table(&self) -> Option<&str>
        ensures { option_copied result ≡ first_text table_letter self.now.fields }
    {
        self.0.get(letters::TABLE)
    }

    /// The column that the error is about.
    pub fn column(&self) -> Option<&str>
        ensures { option_copied result ≡ first_text column_letter self.now.fields }
    {
        self.0.get(letters::COLUMN)
    }

    /// The data type that the error is about.
    pub fn data_type(&self) -> Option<&str>
        ensures { option_copied result ≡ first_text data_type_letter self.now.fields }
    {
        self.0.get(letters::DATA_TYPE)
    }

    /// The constraint that the error is about.
    pub fn constraint(&self) -> Option<&str>
        ensures { option_copied result ≡ first_text constraint_letter self.now.fields }
    {
        self.0.get(letters::CONSTRAINT)
    }

    /// The file of the server's source where the error was reported.
    pub fn file(&self) -> Option<&str>
        ensures { option_copied result ≡ first_text file_letter self.now.fields }
    {
        self.0.get(letters::FILE)
    }

    /// The line in that file: the number at the front of the field, where one is that fits.
    pub fn line(&self) -> Option<usize>
        ensures { result ≡ first_number line_letter self.now.fields }
    {
        self.number(letters::LINE)
    }

    /// The routine of the server that reported the error.
    pub fn routine(&self) -> Option<&str>
        ensures { option_copied result ≡ first_text routine_letter self.now.fields }
    {
        self.0.get(letters::ROUTINE)
    }

    /// Which constraint was violated, by the code.
    pub fn kind(&self) -> ErrorKind
        ensures { result ≡ kind_of self.now.code }
    {
        match self.code() {
            error_codes::UNIQUE_VIOLATION => ErrorKind::UniqueViolation,
            error_codes::FOREIGN_KEY_VIOLATION => ErrorKind::ForeignKeyViolation,
            error_codes::NOT_NULL_VIOLATION => ErrorKind::NotNullViolation,
            error_codes::CHECK_VIOLATION => ErrorKind::CheckViolation,
            error_codes::EXCLUSION_VIOLATION => ErrorKind::ExclusionViolation,
            _ => ErrorKind::Other,
        }
    }

    /// Whether the same attempt to connect may succeed later.
    pub fn is_transient_in_connect_phase(&self) -> bool
        ensures { result ≡ is_transient self.now.code }
    {
        let code = self.code();
        code == TOO_MANY_CONNECTIONS || code == CANNOT_CONNECT_NOW
    }

    // The number at the front of the first field of a letter.
    fn number(&self, letter: u8) -> Option<usize>
        ensures { result ≡ first_number letter self.now.fields }
    {
        leading_usize(self.0.get_raw(letter)?)
    }
}

impl fmt::Display for PgDatabaseError {
    ghost output = { λ error. Some (database_error_words error) };

    fn fmt<W: fmt::Write>(&self, f: &mut fmt::Formatter<W>) -> fmt::Result {
        let message = self.message();
        match self.line() {
            Some(line) => write!(f, "{message} at line {line}"),
            None => write!(f, "{message}"),
        }
    }
}

impl BackendMessage for PgDatabaseError {
    const FORMAT: BackendMessageFormat = BackendMessageFormat::ErrorResponse;

    ghost FORMAT = { formats.ErrorResponse };

    ghost Shown = { NoticeValue };

    ghost shown = { λ error. error };

    ghost format = { notices };

    ghost NeedsNoMemory = { λ _. Unit {0} };

    fn decode_body(alloc: Global, buf: Bytes) -> Result<Self, Error> {
        Ok(PgDatabaseError(Notice::decode_body(alloc, buf)?))
    }

    ghost lawful = { lawful_viewed _ lawful_notice };
}
