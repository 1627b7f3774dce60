//! The messages of transactions that are prepared before they are committed.

ghost use Rattle.std.specs.Prelude.{◌≤◌, length};
ghost use Rattle.pg_format.specs.Format.Places.{ReadsAfter};
ghost use Rattle.pg_format.specs.Logical as page;
ghost use Rattle.pg_replication.specs.Logical.{shown_begin_prepare, shown_prepared, shown_rollback_prepared};

use crate::logical::fields::OutboundFields;
use pg_base::ProtocolFault;
use pg_base::io::MAX_BODY;
use pg_base::io::part::{Number32, Number64, Then};
use pg_format::field::{Number8, Signed64, fields_from};
use pg_server::backend::NulEnded;

/// A transaction begins that is prepared. Documentation: "Logical Replication Message Formats", Begin Prepare.
#[derive(Clone, Copy, Debug, PartialEq, Eq)]
pub struct BeginPrepare<'a> {
    /// Where the prepare is, in bytes of the log.
    pub lsn: u64,
    /// Where the prepared transaction ends.
    pub end_lsn: u64,
    /// When it was prepared, in microseconds since the beginning of the year 2000.
    pub clock: i64,
    /// The transaction's number.
    pub transaction: u32,
    /// The name that its client gave to it.
    pub gid: &'a [u8],
}

type BeginPrepareParts<'a> = Then<
    Number64,
    Then<Number64, Then<Signed64, Then<Number32, NulEnded<'a>>>>,
>;

impl<'a> BeginPrepare<'a> {
    /// Reads what follows the letter, which stands before an offset of a message.
    pub(crate) fn read(message: &'a [u8], at: usize) -> Result<BeginPrepare<'a>, ProtocolFault>
        requires within { at ≤ length message.now }
        requires short { length message.now ≤ MAX_BODY }
        ensures { ReadsAfter page.begin_prepare shown_begin_prepare message.now at result }
    {
        let Then(
            Number64(lsn),
            Then(
                Number64(end_lsn),
                Then(Signed64(clock), Then(Number32(transaction), NulEnded(gid))),
            ),
        ) = fields_from::<BeginPrepareParts<'a>>(message, at)?;
        Ok(BeginPrepare {
            lsn,
            end_lsn,
            clock,
            transaction,
            gid,
        })
    }
}

impl<'a> OutboundFields for BeginPrepare<'a> {
    ghost use Rattle.pg_replication.specs.Logical.Encode.{begin_prepare_part};

    type Parts = BeginPrepareParts<'a>;

    ghost law = { begin_prepare_part };

    #[inline(always)]
    fn parts(&self) -> Self::Parts {
        let named = Then(Number32(self.transaction), NulEnded(self.gid));
        let end = Then(Number64(self.end_lsn), Then(Signed64(self.clock), named));
        Then(Number64(self.lsn), end)
    }
}

/// A transaction is prepared, or a prepared one is committed. Documentation: "Logical Replication Message Formats", Prepare, Commit Prepared, Stream Prepare.
#[derive(Clone, Copy, Debug, PartialEq, Eq)]
pub struct Prepared<'a> {
    /// Without a meaning yet: 0.
    pub flags: u8,
    /// Where the prepare is, or the commit, in bytes of the log.
    pub lsn: u64,
    /// Where the prepared transaction ends, or its commit.
    pub end_lsn: u64,
    /// When it was prepared or committed, in microseconds since the beginning of the year 2000.
    pub clock: i64,
    /// The transaction's number.
    pub transaction: u32,
    /// The name that its client gave to it.
    pub gid: &'a [u8],
}

type PreparedParts<'a> = Then<
    Number8,
    Then<Number64, Then<Number64, Then<Signed64, Then<Number32, NulEnded<'a>>>>>,
>;

impl<'a> Prepared<'a> {
    /// Reads what follows the letter, which stands before an offset of a message.
    pub(crate) fn read(message: &'a [u8], at: usize) -> Result<Prepared<'a>, ProtocolFault>
        requires within { at ≤ length message.now }
        requires short { length message.now ≤ MAX_BODY }
        ensures { ReadsAfter page.prepared shown_prepared message.now at result }
    {
        let Then(
            Number8(flags),
            Then(
                Number64(lsn),
                Then(
                    Number64(end_lsn),
                    Then(Signed64(clock), Then(Number32(transaction), NulEnded(gid))),
                ),
            ),
        ) = fields_from::<PreparedParts<'a>>(message, at)?;
        Ok(Prepared {
            flags,
            lsn,
            end_lsn,
            clock,
            transaction,
            gid,
        })
    }
}

impl<'a> OutboundFields for Prepared<'a> {
    ghost use Rattle.pg_replication.specs.Logical.Encode.{prepared_part};

    type Parts = PreparedParts<'a>;

    ghost law = { prepared_part };

    #[inline(always)]
    fn parts(&self) -> Self::Parts {
        let named = Then(Number32(self.transaction), NulEnded(self.gid));
        let end = Then(Number64(self.end_lsn), Then(Signed64(self.clock), named));
        Then(Number8(self.flags), Then(Number64(self.lsn), end))
    }
}

/// A prepared transaction is undone. Documentation: "Logical Replication Message Formats", Rollback Prepared.
#[derive(Clone, Copy, Debug, PartialEq, Eq)]
pub struct RollbackPrepared<'a> {
    /// Without a meaning yet: 0.
    pub flags: u8,
    /// Where the prepared transaction ends, in bytes of the log.
    pub prepare_end_lsn: u64,
    /// Where its rollback ends.
    pub rollback_end_lsn: u64,
    /// When it was prepared, in microseconds since the beginning of the year 2000.
    pub prepare_clock: i64,
    /// When it was undone, alike.
    pub rollback_clock: i64,
    /// The transaction's number.
    pub transaction: u32,
    /// The name that its client gave to it.
    pub gid: &'a [u8],
}

type RollbackPreparedParts<'a> = Then<
    Number8,
    Then<Number64, Then<Number64, Then<Signed64, Then<Signed64, Then<Number32, NulEnded<'a>>>>>>,
>;

impl<'a> RollbackPrepared<'a> {
    /// Reads what follows the letter, which stands before an offset of a message.
    pub(crate) fn read(message: &'a [u8], at: usize) -> Result<RollbackPrepared<'a>, ProtocolFault>
        requires within { at ≤ length message.now }
        requires short { length message.now ≤ MAX_BODY }
        ensures { ReadsAfter page.rollback_prepared shown_rollback_prepared message.now at result }
    {
        let Then(
            Number8(flags),
            Then(
                Number64(prepare_end_lsn),
                Then(
                    Number64(rollback_end_lsn),
                    Then(
                        Signed64(prepare_clock),
                        Then(Signed64(rollback_clock), Then(Number32(transaction), NulEnded(gid))),
                    ),
                ),
            ),
        ) = fields_from::<RollbackPreparedParts<'a>>(message, at)?;
        Ok(RollbackPrepared {
            flags,
            prepare_end_lsn,
            rollback_end_lsn,
            prepare_clock,
            rollback_clock,
            transaction,
            gid,
        })
    }
}

impl<'a> OutboundFields for RollbackPrepared<'a> {
    ghost use Rattle.pg_replication.specs.Logical.Encode.{rollback_prepared_part};

    type Parts = RollbackPreparedParts<'a>;

    ghost law = { rollback_prepared_part };

    #[inline(always)]
    fn parts(&self) -> Self::Parts {
        let named = Then(Number32(self.transaction), NulEnded(self.gid));
        let clocks = Then(
            Signed64(self.prepare_clock),
            Then(Signed64(self.rollback_clock), named),
        );
        let ends = Then(
            Number64(self.prepare_end_lsn),
            Then(Number64(self.rollback_end_lsn), clocks),
        );
        Then(Number8(self.flags), ends)
    }
}
