//! The messages around the parts of a transaction that is streamed while it is open.

ghost use Rattle.std.specs.Prelude.{◌≤◌, length};
ghost use Rattle.pg_format.specs.Format.Places.{ReadsAfter};
ghost use Rattle.pg_format.specs.Logical as page;
ghost use Rattle.pg_replication.specs.Logical.{shown_stream_start, shown_stream_stop, shown_stream_commit, shown_stream_abort};

use crate::logical::fields::OutboundFields;
use pg_base::ProtocolFault;
use pg_base::io::MAX_BODY;
use pg_base::io::part::{NoBytes, Number32, Number64, Then};
use pg_format::field::{Flag, Number8, Signed64, fields_from};

/// Messages of a streamed transaction follow, up to the [`StreamStop`]. Documentation: "Logical Replication Message Formats", Stream Start.
#[derive(Clone, Copy, Debug, PartialEq, Eq)]
pub struct StreamStart {
    /// The transaction's number.
    pub transaction: u32,
    /// Whether they are the first of the transaction.
    pub is_first: bool,
}

impl StreamStart {
    /// Reads what follows the letter, which stands before an offset of a message.
    pub(crate) fn read(message: &[u8], at: usize) -> Result<StreamStart, ProtocolFault>
        requires within { at ≤ length message.now }
        requires short { length message.now ≤ MAX_BODY }
        ensures { ReadsAfter page.stream_start shown_stream_start message.now at result }
    {
        let Then(Number32(transaction), Flag(is_first)) = fields_from::<Then<Number32, Flag>>(
            message, at,
        )?;
        Ok(StreamStart {
            transaction,
            is_first,
        })
    }
}

impl OutboundFields for StreamStart {
    ghost use Rattle.pg_replication.specs.Logical.Encode.{stream_start_part};

    type Parts = Then<Number32, Flag>;

    ghost law = { stream_start_part };

    #[inline(always)]
    fn parts(&self) -> Self::Parts {
        Then(Number32(self.transaction), Flag(self.is_first))
    }
}

/// The end of the messages that follow a [`StreamStart`]. Documentation: "Logical Replication Message Formats", Stream Stop.
#[derive(Clone, Copy, Debug, PartialEq, Eq)]
pub struct StreamStop;

impl StreamStop {
    /// Reads what follows the letter, which stands before an offset of a message.
    pub(crate) fn read(message: &[u8], at: usize) -> Result<StreamStop, ProtocolFault>
        requires within { at ≤ length message.now }
        requires short { length message.now ≤ MAX_BODY }
        ensures { ReadsAfter page.stream_stop shown_stream_stop message.now at result }
    {
        let NoBytes = fields_from::<NoBytes>(message, at)?;
        Ok(StreamStop)
    }
}

impl OutboundFields for StreamStop {
    ghost use Rattle.pg_replication.specs.Logical.Encode.{stream_stop_part};

    type Parts = NoBytes;

    ghost law = { stream_stop_part };

    #[inline(always)]
    fn parts(&self) -> Self::Parts {
        NoBytes
    }
}

/// A streamed transaction is committed. Documentation: "Logical Replication Message Formats", Stream Commit.
#[derive(Clone, Copy, Debug, PartialEq, Eq)]
pub struct StreamCommit {
    /// The transaction's number.
    pub transaction: u32,
    /// Without a meaning yet: 0.
    pub flags: u8,
    /// Where the commit is, in bytes of the log.
    pub lsn: u64,
    /// Where the transaction ends.
    pub end_lsn: u64,
    /// When it was committed, in microseconds since the beginning of the year 2000.
    pub clock: i64,
}

type StreamCommitParts = Then<Number32, Then<Number8, Then<Number64, Then<Number64, Signed64>>>>;

impl StreamCommit {
    /// Reads what follows the letter, which stands before an offset of a message.
    pub(crate) fn read(message: &[u8], at: usize) -> Result<StreamCommit, ProtocolFault>
        requires within { at ≤ length message.now }
        requires short { length message.now ≤ MAX_BODY }
        ensures { ReadsAfter page.stream_commit shown_stream_commit message.now at result }
    {
        let Then(
            Number32(transaction),
            Then(Number8(flags), Then(Number64(lsn), Then(Number64(end_lsn), Signed64(clock)))),
        ) = fields_from::<StreamCommitParts>(message, at)?;
        Ok(StreamCommit {
            transaction,
            flags,
            lsn,
            end_lsn,
            clock,
        })
    }
}

impl OutboundFields for StreamCommit {
    ghost use Rattle.pg_replication.specs.Logical.Encode.{stream_commit_part};

    type Parts = StreamCommitParts;

    ghost law = { stream_commit_part };

    #[inline(always)]
    fn parts(&self) -> Self::Parts {
        let end = Then(Number64(self.end_lsn), Signed64(self.clock));
        let commit = Then(Number8(self.flags), Then(Number64(self.lsn), end));
        Then(Number32(self.transaction), commit)
    }
}

/// A streamed transaction is undone, or a part of it. Documentation: "Logical Replication Message Formats", Stream Abort.
#[derive(Clone, Copy, Debug, PartialEq, Eq)]
pub struct StreamAbort {
    /// The transaction's number.
    pub transaction: u32,
    /// The part that is undone: the number of the subtransaction, or of the transaction where all is.
    pub subtransaction: u32,
}

impl StreamAbort {
    /// Reads what follows the letter, which stands before an offset of a message.
    pub(crate) fn read(message: &[u8], at: usize) -> Result<StreamAbort, ProtocolFault>
        requires within { at ≤ length message.now }
        requires short { length message.now ≤ MAX_BODY }
        ensures { ReadsAfter page.stream_abort shown_stream_abort message.now at result }
    {
        let Then(Number32(transaction), Number32(subtransaction)) = fields_from::<
            Then<Number32, Number32>,
        >(message, at)?;
        Ok(StreamAbort {
            transaction,
            subtransaction,
        })
    }
}

impl OutboundFields for StreamAbort {
    ghost use Rattle.pg_replication.specs.Logical.Encode.{stream_abort_part};

    type Parts = Then<Number32, Number32>;

    ghost law = { stream_abort_part };

    #[inline(always)]
    fn parts(&self) -> Self::Parts {
        Then(Number32(self.transaction), Number32(self.subtransaction))
    }
}
