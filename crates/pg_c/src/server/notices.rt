//! Errors, notices and notifications.

ghost use Rattle.std.specs.Prelude.{◌≡◌};
ghost use Rattle.pg_server.specs.Backend.Notice.{notice_tag};
ghost use Rattle.pg_c.specs.Server.{PutsByTag};
ghost use Rattle.pg_c.specs.Server.Letters.{notice_kind_of};
ghost use Rattle.pg_c.specs.Server.Lists.{field_text_of};
ghost use Rattle.pg_c.specs.Server.Messages.{notice_of_kind, PutsNotification};

use crate::refusal::UNKNOWN_MESSAGE_TYPE;
use crate::server::put;
use pg_server::backend::{
    AsOutboundItem, NoticeKind, OutboundNotice, OutboundNoticeField, OutboundNotification,
};

/// A field of an error or a notice that is written, by the letter of what it says.
#[repr(C)]
#[derive(Clone, Copy)]
pub struct PgmsgFieldText<'a> {
    pub letter: u8,
    pub text: &'a [u8],
}

impl<'a> AsOutboundItem<OutboundNoticeField<'a>> for PgmsgFieldText<'a> {
    ghost item = { field_text_of };

    #[inline(always)]
    fn as_item(&self) -> OutboundNoticeField<'a> {
        OutboundNoticeField {
            letter: self.letter,
            text: self.text,
        }
    }
}

/// An ErrorResponse, whose tag is `E`, or a NoticeResponse, `N`, by its fields in order: a client asks for
/// `S`, the severity, `C`, the code, and `M`, the message. A field of the letter 0, or a text that holds a
/// NUL, is refused: it would end the fields. Of other tags it is refused with PGMSG_UNKNOWN_MESSAGE_TYPE.
#[unsafe(no_mangle)]
#[tactic(auto, using(crate::proofs::ServerLettersLemmas::notice_found, crate::proofs::ServerLettersLemmas::put_by_letter, crate::proofs::ServerLettersLemmas::refused_by_letter))]
pub extern "C" fn pgmsg_put_notice(tag: u8, fields: &[PgmsgFieldText<'_>], out: &mut [u8]) -> isize
    ensures { PutsByTag notice_tag (notice_of_kind fields.now) tag out.old out.new result }
{
    match kind_of(tag) {
        Some(kind) => put(&OutboundNotice { kind, fields }, out),
        None => UNKNOWN_MESSAGE_TYPE as isize,
    }
}

fn kind_of(tag: u8) -> Option<NoticeKind>
    ensures { result ≡ notice_kind_of tag }
{
    match tag {
        b'E' => Some(NoticeKind::Error),
        b'N' => Some(NoticeKind::Notice),
        _ => None,
    }
}

/// A NotificationResponse: what the session was notified of, by which process, on which channel, and what was said. A NUL in a
/// text is refused.
#[unsafe(no_mangle)]
pub extern "C" fn pgmsg_put_notification(
    process_id: u32,
    channel: &[u8],
    payload: &[u8],
    out: &mut [u8],
) -> isize
    ensures { PutsNotification process_id channel.now payload.now out.old out.new result }
{
    let notification = OutboundNotification {
        process_id,
        channel,
        payload,
    };
    put(&notification, out)
}
