//! Why a reader of a client's stream gives no message.

ghost use Rattle.std.specs.Prelude.{◌≡◌, Some};
ghost use Rattle.pg_frames.specs.declared.frontend.error.FrontendError.TheVariants.{Protocol, OutOfMemory};
ghost use Rattle.pg_frames.specs.Frontend.Error.{error_words};

use pg_server::frontend::FrontendFault;
use std::alloc::AllocError;
use std::fmt;

/// Why a reader of a client's stream gives no message.
#[derive(Clone, Copy, Debug, PartialEq, Eq)]
pub enum FrontendError {
    /// No message begins as the bytes go on.
    Protocol(FrontendFault),
    /// A growth of a buffer, or a cut that shares one, found no memory.
    OutOfMemory,
}

impl fmt::Display for FrontendError {
    ghost output = { λ error. Some (error_words error) };

    fn fmt<W: fmt::Write>(&self, f: &mut fmt::Formatter<W>) -> fmt::Result {
        match *self {
            FrontendError::Protocol(fault) => write!(f, "{fault}"),
            FrontendError::OutOfMemory => write!(f, "out of memory"),
        }
    }
}

impl std::error::Error for FrontendError {}

impl From<FrontendFault> for FrontendError {
    ghost from_gives = { λ fault error. error ≡ Protocol fault };

    fn from(fault: FrontendFault) -> FrontendError {
        FrontendError::Protocol(fault)
    }
}

impl From<AllocError> for FrontendError {
    ghost from_gives = { λ _ error. error ≡ OutOfMemory };

    fn from(_error: AllocError) -> FrontendError {
        FrontendError::OutOfMemory
    }
}
