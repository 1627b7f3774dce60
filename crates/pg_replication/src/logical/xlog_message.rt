//! A message of logical replication as a server streams it.

ghost use Rattle.pg_server.specs.Backend.Message.{XLogContent};
ghost use Rattle.pg_replication.specs.Logical.XLogMessage.{piece_of};
ghost use Rattle.pg_replication.specs.Logical.Encode.{content_part};

use crate::logical::LogicalMessage;
use pg_base::FrontendMessageFormat;
use pg_base::io::part::{Byte, Number64, Then};
use pg_format::ReplicationKind;
use pg_format::field::Signed64;
use pg_server::backend::OutboundMessage;

/// A message of logical replication as a server streams it: the content of an [`XLogData`](crate::XLogData), which is
/// the data of a CopyData. It is written at once; a fault is that of the message.
#[derive(Clone, Copy)]
pub struct XLogMessage<'a> {
    /// Where the message begins in the log, in bytes.
    pub start: u64,
    /// Where the server's log ends.
    pub end: u64,
    /// The server's clock, in microseconds since the beginning of the year 2000.
    pub clock: i64,
    /// The message.
    pub message: LogicalMessage<'a>,
}

impl<'a> OutboundMessage for XLogMessage<'a> {
    type Body = Then<Byte, Then<Number64, Then<Number64, Then<Signed64, LogicalMessage<'a>>>>>;

    ghost message = { λ it. XLogContent (piece_of it) (content_part it.message).fault };

    fn tag(&self) -> u8 {
        FrontendMessageFormat::CopyData as u8
    }

    #[inline(always)]
    fn parts(&self) -> Self::Body {
        let content = Then(Signed64(self.clock), self.message);
        let piece = Then(Number64(self.start), Then(Number64(self.end), content));
        Then(Byte(ReplicationKind::XLogData as u8), piece)
    }
}
