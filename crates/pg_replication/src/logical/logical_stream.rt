//! The messages of logical replication, in the order in which they come.

ghost use Rattle.std.specs.Prelude.{◌≡◌, ◌≤◌, ◌<◌, false, length};
ghost use Rattle.pg_replication.specs.Lettered.{IsTooLong};
ghost use Rattle.pg_replication.specs.Logical.{ReadsLogical, streamed_after};

use crate::logical::LogicalMessage;
use pg_base::ProtocolFault;
use pg_base::io::MAX_BODY;

/// Reads the messages of a slot in order, and knows which of them stand between a Stream Start and a Stream Stop.
#[derive(Clone, Copy, Debug, PartialEq, Eq)]
pub struct LogicalStream {
    /// Whether the next message stands there.
    pub streamed: bool,
}

impl LogicalStream {
    /// Begins where replication begins, outside of a streamed transaction.
    pub fn new() -> LogicalStream
        ensures { result ≡ record { streamed = false } }
    {
        LogicalStream { streamed: false }
    }

    /// Reads the next message as [`LogicalMessage::read`] does. A Stream Start says that the messages after it belong
    /// to a streamed transaction, up to a Stream Stop. After a fault the reader is as it was.
    pub fn read<'a>(&mut self, message: &'a [u8]) -> Result<LogicalMessage<'a>, ProtocolFault>
        ensures read { length message.now ≤ MAX_BODY → ReadsLogical self.old.streamed message.now result }
        ensures long { MAX_BODY < length message.now → IsTooLong message.now result }
        ensures after { self.new.streamed ≡ streamed_after self.old.streamed result }
    {
        let answer = LogicalMessage::read(message, self.streamed);
        self.streamed = streamed_after(self.streamed, &answer);
        answer
    }
}

// Whether a message after the one that is read stands within a streamed transaction.
fn streamed_after(streamed: bool, answer: &Result<LogicalMessage<'_>, ProtocolFault>) -> bool
    ensures { result ≡ streamed_after streamed answer.now }
{
    match answer {
        Ok(LogicalMessage::StreamStart(_)) => true,
        Ok(LogicalMessage::StreamStop(_)) => false,
        _ => streamed,
    }
}
