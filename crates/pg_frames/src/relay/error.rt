//! Why a relay passes nothing on.

ghost use Rattle.std.specs.Prelude.{◌≡◌, Some};
ghost use Rattle.pg_frames.specs.declared.relay.error.RelayError.TheVariants.{OutOfMemory};
ghost use Rattle.pg_frames.specs.Relay.Error.{error_words};

use std::alloc::AllocError;
use std::fmt;

/// Why a relay passes nothing on. Lengths are in bytes.
#[derive(Clone, Copy, Debug, PartialEq, Eq)]
pub enum RelayError {
    /// The length of a message on the stream is below 4, by which it counts itself; or, of a first message,
    /// below 8, by which it counts the code too.
    BadLength(i32),
    /// A message that is wanted whole is longer than the relay takes.
    TooLong {
        /// How many bytes it has, with its tag and its length.
        length: usize,
        /// The greatest number that is taken.
        limit: usize,
    },
    /// What is to be added to the stream isn't a run of whole messages, after which the stream goes on.
    NotFrames,
    /// A growth of a buffer found no memory.
    OutOfMemory,
}

impl fmt::Display for RelayError {
    ghost output = { λ error. Some (error_words error) };

    fn fmt<W: fmt::Write>(&self, f: &mut fmt::Formatter<W>) -> fmt::Result {
        match *self {
            RelayError::BadLength(length) => write!(f, "bad message length: {length}"),
            RelayError::TooLong { length, limit } => {
                write!(
                    f,
                    "expected a message of at most {limit} bytes, got {length}"
                )
            }
            RelayError::NotFrames => write!(f, "expected whole messages to pass on"),
            RelayError::OutOfMemory => write!(f, "out of memory"),
        }
    }
}

impl std::error::Error for RelayError {}

impl From<AllocError> for RelayError {
    ghost from_gives = { λ _ error. error ≡ OutOfMemory };

    fn from(_error: AllocError) -> RelayError {
        RelayError::OutOfMemory
    }
}
