//! How grave an error or a notice is.

ghost use Rattle.std.specs.Prelude.{◌≡◌};
ghost use Rattle.pg_receive.specs.Response.Severity.{is_error, severity_answer, severity_of_word};

use pg_base::{Error, ProtocolFault};

/// How grave an error or a notice is. As a number it is the place in this list, 0 to 7: first those
/// of errors, from the gravest on. Documentation: "Error and Notice Message Fields", V.
#[derive(Clone, Copy, Debug, PartialEq, Eq)]
pub enum PgSeverity {
    Panic,
    Fatal,
    Error,
    Warning,
    Notice,
    Debug,
    Info,
    Log,
}

impl PgSeverity {
    /// Whether it is one of an error, and not of a notice.
    pub fn is_error(self) -> bool
        ensures { result ≡ is_error self }
    {
        matches!(
            self,
            PgSeverity::Panic | PgSeverity::Fatal | PgSeverity::Error
        )
    }

    /// The severity of a word in upper case.
    pub(crate) fn from_word(word: &str) -> Option<PgSeverity>
        ensures { result ≡ severity_of_word word.now }
    {
        Some(match word {
            "PANIC" => PgSeverity::Panic,
            "FATAL" => PgSeverity::Fatal,
            "ERROR" => PgSeverity::Error,
            "WARNING" => PgSeverity::Warning,
            "NOTICE" => PgSeverity::Notice,
            "DEBUG" => PgSeverity::Debug,
            "INFO" => PgSeverity::Info,
            "LOG" => PgSeverity::Log,
            _ => return None,
        })
    }
}

impl TryFrom<&str> for PgSeverity {
    type Error = Error;

    ghost try_from_gives = { λ word result. result ≡ severity_answer word.now };

    /// The severity of a word in upper case, or `UnknownSeverity` where none has it.
    fn try_from(word: &str) -> Result<PgSeverity, Error> {
        PgSeverity::from_word(word).ok_or(ProtocolFault::UnknownSeverity.into())
    }
}
