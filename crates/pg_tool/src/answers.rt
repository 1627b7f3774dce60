//! The answer to each message of `encode`, as a line.

use pg_base::Error;
use std::alloc::AllocError;

/// Adds the line of an answer, by the number of its message from 1: `ok`, or why the message is refused.
pub fn push_answer(
    number: usize,
    answer: &Result<(), Error>,
    output: &mut String,
) -> Result<(), AllocError> {
    match answer {
        Ok(()) => writeln!(output, "{number} ok"),
        Err(error) => writeln!(output, "{number} refused: {error}"),
    }
}
