//! The messages by which a log is streamed.

ghost use Rattle.std.specs.Prelude.{◌≤◌, length};
ghost use Rattle.pg_format.specs.Format.Places.{ReadsAfter};
ghost use Rattle.pg_format.specs.Replication as page;
ghost use Rattle.pg_format.specs.declared.replication.ReplicationKind.TheVariants as kinds;
ghost use Rattle.pg_server.specs.Backend.Message.{Replication};
ghost use Rattle.pg_replication.specs.ReplicationMessage.{shown_xlog_data, shown_keepalive, shown_status_update, shown_feedback};

use pg_base::io::MAX_BODY;
use pg_base::io::part::{Byte, Number32, Number64, Slice, Then};
use pg_base::{FrontendMessageFormat, ProtocolFault};
use pg_format::ReplicationKind;
use pg_format::field::{Flag, Signed64, fields_from};
use pg_server::backend::OutboundMessage;

/// A piece of the log. Documentation: "Streaming Replication Protocol", XLogData (B).
#[derive(Clone, Copy, Debug, PartialEq, Eq)]
pub struct XLogData<'a> {
    /// Where the piece begins in the log, in bytes.
    pub start: u64,
    /// Where the server's log ends.
    pub end: u64,
    /// The server's clock, in microseconds since the beginning of the year 2000.
    pub clock: i64,
    /// The piece.
    pub content: &'a [u8],
}

type XLogDataFields<'a> = Then<Number64, Then<Number64, Then<Signed64, Slice<'a>>>>;

impl<'a> XLogData<'a> {
    /// Reads what follows the letter, which stands before an offset of a message.
    pub(crate) fn read(message: &'a [u8], at: usize) -> Result<XLogData<'a>, ProtocolFault>
        requires within { at ≤ length message.now }
        requires short { length message.now ≤ MAX_BODY }
        ensures { ReadsAfter page.xlog_data shown_xlog_data message.now at result }
    {
        let Then(Number64(start), Then(Number64(end), Then(Signed64(clock), Slice(content)))) =
            fields_from::<XLogDataFields<'a>>(message, at)?;
        Ok(XLogData {
            start,
            end,
            clock,
            content,
        })
    }
}

impl<'a> OutboundMessage for XLogData<'a> {
    type Body = Then<Byte, XLogDataFields<'a>>;

    ghost message = { λ it. Replication kinds.XLogData (shown_xlog_data it) };

    fn tag(&self) -> u8 {
        FrontendMessageFormat::CopyData as u8
    }

    #[inline(always)]
    fn parts(&self) -> Self::Body {
        Then(
            Byte(ReplicationKind::XLogData as u8),
            Then(
                Number64(self.start),
                Then(
                    Number64(self.end),
                    Then(Signed64(self.clock), Slice(self.content)),
                ),
            ),
        )
    }
}

/// A sign that the server is there. Documentation: "Streaming Replication Protocol", Primary keepalive
/// message (B).
#[derive(Clone, Copy, Debug, PartialEq, Eq)]
pub struct PrimaryKeepalive {
    /// Where the server's log ends, in bytes.
    pub end: u64,
    /// The server's clock, in microseconds since the beginning of the year 2000.
    pub clock: i64,
    /// Whether the client is to answer at once.
    pub wants_reply: bool,
}

type PrimaryKeepaliveFields = Then<Number64, Then<Signed64, Flag>>;

impl PrimaryKeepalive {
    /// Reads what follows the letter, which stands before an offset of a message.
    pub(crate) fn read(message: &[u8], at: usize) -> Result<PrimaryKeepalive, ProtocolFault>
        requires within { at ≤ length message.now }
        requires short { length message.now ≤ MAX_BODY }
        ensures { ReadsAfter page.primary_keepalive shown_keepalive message.now at result }
    {
        let Then(Number64(end), Then(Signed64(clock), Flag(wants_reply))) = fields_from::<
            PrimaryKeepaliveFields,
        >(message, at)?;
        Ok(PrimaryKeepalive {
            end,
            clock,
            wants_reply,
        })
    }
}

impl OutboundMessage for PrimaryKeepalive {
    type Body = Then<Byte, PrimaryKeepaliveFields>;

    ghost message = { λ it. Replication kinds.PrimaryKeepalive (shown_keepalive it) };

    fn tag(&self) -> u8 {
        FrontendMessageFormat::CopyData as u8
    }

    #[inline(always)]
    fn parts(&self) -> Self::Body {
        Then(
            Byte(ReplicationKind::PrimaryKeepalive as u8),
            Then(
                Number64(self.end),
                Then(Signed64(self.clock), Flag(self.wants_reply)),
            ),
        )
    }
}

/// How far a client has come. Documentation: "Streaming Replication Protocol", Standby status update (F).
#[derive(Clone, Copy, Debug, PartialEq, Eq)]
pub struct StandbyStatusUpdate {
    /// The position after the last byte of the log that was written.
    pub written: u64,
    /// The position after the last byte that was flushed.
    pub flushed: u64,
    /// The position after the last byte that was applied.
    pub applied: u64,
    /// The client's clock, in microseconds since the beginning of the year 2000.
    pub clock: i64,
    /// Whether the server is to answer at once.
    pub wants_reply: bool,
}

type StandbyStatusUpdateFields = Then<
    Number64,
    Then<Number64, Then<Number64, Then<Signed64, Flag>>>,
>;

impl StandbyStatusUpdate {
    /// Reads what follows the letter, which stands before an offset of a message.
    pub(crate) fn read(message: &[u8], at: usize) -> Result<StandbyStatusUpdate, ProtocolFault>
        requires within { at ≤ length message.now }
        requires short { length message.now ≤ MAX_BODY }
        ensures { ReadsAfter page.standby_status_update shown_status_update message.now at result }
    {
        let Then(
            Number64(written),
            Then(
                Number64(flushed),
                Then(Number64(applied), Then(Signed64(clock), Flag(wants_reply))),
            ),
        ) = fields_from::<StandbyStatusUpdateFields>(message, at)?;
        Ok(StandbyStatusUpdate {
            written,
            flushed,
            applied,
            clock,
            wants_reply,
        })
    }
}

impl OutboundMessage for StandbyStatusUpdate {
    type Body = Then<Byte, StandbyStatusUpdateFields>;

    ghost message = { λ it. Replication kinds.StandbyStatusUpdate (shown_status_update it) };

    fn tag(&self) -> u8 {
        FrontendMessageFormat::CopyData as u8
    }

    #[inline(always)]
    fn parts(&self) -> Self::Body {
        Then(
            Byte(ReplicationKind::StandbyStatusUpdate as u8),
            Then(
                Number64(self.written),
                Then(
                    Number64(self.flushed),
                    Then(
                        Number64(self.applied),
                        Then(Signed64(self.clock), Flag(self.wants_reply)),
                    ),
                ),
            ),
        )
    }
}

/// Which transactions a client needs. Where both are 0, it needs none from now on. Documentation: "Streaming
/// Replication Protocol", Hot standby feedback message (F).
#[derive(Clone, Copy, Debug, PartialEq, Eq)]
pub struct HotStandbyFeedback {
    /// The client's clock, in microseconds since the beginning of the year 2000.
    pub clock: i64,
    /// The oldest transaction that the client needs.
    pub xmin: u32,
    /// Its epoch.
    pub xmin_epoch: u32,
    /// The oldest transaction that the slots of the client need, 0 for none.
    pub catalog_xmin: u32,
    /// Its epoch.
    pub catalog_xmin_epoch: u32,
}

type HotStandbyFeedbackFields = Then<
    Signed64,
    Then<Number32, Then<Number32, Then<Number32, Number32>>>,
>;

impl HotStandbyFeedback {
    /// Reads what follows the letter, which stands before an offset of a message.
    pub(crate) fn read(message: &[u8], at: usize) -> Result<HotStandbyFeedback, ProtocolFault>
        requires within { at ≤ length message.now }
        requires short { length message.now ≤ MAX_BODY }
        ensures { ReadsAfter page.hot_standby_feedback shown_feedback message.now at result }
    {
        let Then(
            Signed64(clock),
            Then(
                Number32(xmin),
                Then(
                    Number32(xmin_epoch),
                    Then(Number32(catalog_xmin), Number32(catalog_xmin_epoch)),
                ),
            ),
        ) = fields_from::<HotStandbyFeedbackFields>(message, at)?;
        Ok(HotStandbyFeedback {
            clock,
            xmin,
            xmin_epoch,
            catalog_xmin,
            catalog_xmin_epoch,
        })
    }
}

impl OutboundMessage for HotStandbyFeedback {
    type Body = Then<Byte, HotStandbyFeedbackFields>;

    ghost message = { λ it. Replication kinds.HotStandbyFeedback (shown_feedback it) };

    fn tag(&self) -> u8 {
        FrontendMessageFormat::CopyData as u8
    }

    #[inline(always)]
    fn parts(&self) -> Self::Body {
        Then(
            Byte(ReplicationKind::HotStandbyFeedback as u8),
            Then(
                Signed64(self.clock),
                Then(
                    Number32(self.xmin),
                    Then(
                        Number32(self.xmin_epoch),
                        Then(
                            Number32(self.catalog_xmin),
                            Number32(self.catalog_xmin_epoch),
                        ),
                    ),
                ),
            ),
        )
    }
}
