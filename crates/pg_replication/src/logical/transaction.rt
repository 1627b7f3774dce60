//! The messages of a transaction, beside its changes.

ghost use Rattle.std.specs.Prelude.{◌≤◌, length};
ghost use Rattle.pg_format.specs.Format.Places.{ReadsAfter};
ghost use Rattle.pg_format.specs.Logical as page;
ghost use Rattle.pg_replication.specs.Logical.{shown_begin, shown_message, shown_commit, shown_origin};

use crate::logical::fields::{OutboundFields, Transaction, streamed_fields};
use pg_base::ProtocolFault;
use pg_base::io::MAX_BODY;
use pg_base::io::part::{Number32, Number64, Then};
use pg_format::field::{Number8, Signed64, SizedBytes, fields_from};
use pg_server::backend::NulEnded;

/// A transaction begins. Documentation: "Logical Replication Message Formats", Begin.
#[derive(Clone, Copy, Debug, PartialEq, Eq)]
pub struct Begin {
    /// Where the transaction's commit is, in bytes of the log.
    pub final_lsn: u64,
    /// When it was committed, in microseconds since the beginning of the year 2000.
    pub clock: i64,
    /// The transaction's number.
    pub transaction: u32,
}

impl Begin {
    /// Reads what follows the letter, which stands before an offset of a message.
    pub(crate) fn read(message: &[u8], at: usize) -> Result<Begin, ProtocolFault>
        requires within { at ≤ length message.now }
        requires short { length message.now ≤ MAX_BODY }
        ensures { ReadsAfter page.begin shown_begin message.now at result }
    {
        let Then(Number64(final_lsn), Then(Signed64(clock), Number32(transaction))) = fields_from::<
            Then<Number64, Then<Signed64, Number32>>,
        >(message, at)?;
        Ok(Begin {
            final_lsn,
            clock,
            transaction,
        })
    }
}

impl OutboundFields for Begin {
    ghost use Rattle.pg_replication.specs.Logical.Encode.{begin_part};

    type Parts = Then<Number64, Then<Signed64, Number32>>;

    ghost law = { begin_part };

    #[inline(always)]
    fn parts(&self) -> Self::Parts {
        Then(
            Number64(self.final_lsn),
            Then(Signed64(self.clock), Number32(self.transaction)),
        )
    }
}

/// A message that a program wrote to the log. Documentation: "Logical Replication Message Formats", Message.
#[derive(Clone, Copy, Debug, PartialEq, Eq)]
pub struct Message<'a> {
    /// The transaction's number, where it is streamed.
    pub transaction: Option<u32>,
    /// 1 where the message is a part of its transaction, else 0.
    pub flags: u8,
    /// Where the message is, in bytes of the log.
    pub lsn: u64,
    /// For whom it is.
    pub prefix: &'a [u8],
    /// What it says.
    pub content: &'a [u8],
}

type MessageParts<'a> = Then<Number8, Then<Number64, Then<NulEnded<'a>, SizedBytes<'a>>>>;

impl<'a> Message<'a> {
    /// Reads what follows the letter, which stands before an offset of a message.
    pub(crate) fn read(
        message: &'a [u8],
        at: usize,
        streamed: bool,
    ) -> Result<Message<'a>, ProtocolFault>
        requires within { at ≤ length message.now }
        requires short { length message.now ≤ MAX_BODY }
        ensures { ReadsAfter (page.message streamed) shown_message message.now at result }
    {
        let (
            transaction,
            Then(Number8(flags), Then(Number64(lsn), Then(NulEnded(prefix), SizedBytes(content)))),
        ) = streamed_fields::<MessageParts<'a>>(message, at, streamed)?;
        Ok(Message {
            transaction,
            flags,
            lsn,
            prefix,
            content,
        })
    }
}

impl<'a> OutboundFields for Message<'a> {
    ghost use Rattle.pg_replication.specs.Logical.Encode.{message_part};

    type Parts = Then<Transaction, MessageParts<'a>>;

    ghost law = { message_part };

    #[inline(always)]
    fn parts(&self) -> Self::Parts {
        let content = SizedBytes(self.content);
        let text = Then(NulEnded(self.prefix), content);
        let fields = Then(Number8(self.flags), Then(Number64(self.lsn), text));
        Then(Transaction(self.transaction), fields)
    }
}

/// The transaction is committed. Documentation: "Logical Replication Message Formats", Commit.
#[derive(Clone, Copy, Debug, PartialEq, Eq)]
pub struct Commit {
    /// Without a meaning yet: 0.
    pub flags: u8,
    /// Where the commit is, in bytes of the log.
    pub lsn: u64,
    /// Where the transaction ends.
    pub end_lsn: u64,
    /// When it was committed, in microseconds since the beginning of the year 2000.
    pub clock: i64,
}

type CommitParts = Then<Number8, Then<Number64, Then<Number64, Signed64>>>;

impl Commit {
    /// Reads what follows the letter, which stands before an offset of a message.
    pub(crate) fn read(message: &[u8], at: usize) -> Result<Commit, ProtocolFault>
        requires within { at ≤ length message.now }
        requires short { length message.now ≤ MAX_BODY }
        ensures { ReadsAfter page.commit shown_commit message.now at result }
    {
        let Then(Number8(flags), Then(Number64(lsn), Then(Number64(end_lsn), Signed64(clock)))) =
            fields_from::<CommitParts>(message, at)?;
        Ok(Commit {
            flags,
            lsn,
            end_lsn,
            clock,
        })
    }
}

impl OutboundFields for Commit {
    ghost use Rattle.pg_replication.specs.Logical.Encode.{commit_part};

    type Parts = CommitParts;

    ghost law = { commit_part };

    #[inline(always)]
    fn parts(&self) -> Self::Parts {
        Then(
            Number8(self.flags),
            Then(
                Number64(self.lsn),
                Then(Number64(self.end_lsn), Signed64(self.clock)),
            ),
        )
    }
}

/// The transaction came from another server. Documentation: "Logical Replication Message Formats", Origin.
#[derive(Clone, Copy, Debug, PartialEq, Eq)]
pub struct Origin<'a> {
    /// Where its commit is in that server's log, in bytes.
    pub lsn: u64,
    /// The name of the origin.
    pub name: &'a [u8],
}

impl<'a> Origin<'a> {
    /// Reads what follows the letter, which stands before an offset of a message.
    pub(crate) fn read(message: &'a [u8], at: usize) -> Result<Origin<'a>, ProtocolFault>
        requires within { at ≤ length message.now }
        requires short { length message.now ≤ MAX_BODY }
        ensures { ReadsAfter page.origin shown_origin message.now at result }
    {
        let Then(Number64(lsn), NulEnded(name)) = fields_from::<Then<Number64, NulEnded<'a>>>(
            message, at,
        )?;
        Ok(Origin { lsn, name })
    }
}

impl<'a> OutboundFields for Origin<'a> {
    ghost use Rattle.pg_replication.specs.Logical.Encode.{origin_part};

    type Parts = Then<Number64, NulEnded<'a>>;

    ghost law = { origin_part };

    #[inline(always)]
    fn parts(&self) -> Self::Parts {
        Then(Number64(self.lsn), NulEnded(self.name))
    }
}
