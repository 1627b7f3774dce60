//! A notification from another session.

ghost use Rattle.std.specs.Prelude.{◌≡◌, ◌+◌, ◌<◌, ◌-◌, IfOk, IfErr};
ghost use Rattle.pg_base.specs.declared.error.Error.TheVariants.{OutOfMemory};
ghost use Rattle.pg_base.specs.declared.format.BackendMessageFormat.TheVariants as formats;
ghost use Rattle.pg_format.specs.Format.{ReadsAs};
ghost use Rattle.pg_format.specs.Messages.{notification};
ghost use Rattle.pg_receive.specs.Notification.{notification_borrowed};

use crate::message::{BackendMessage, text_at};
use bytes::Bytes;
use pg_base::io::u32_at;
use pg_base::{BackendMessageFormat, Error, ProtocolFault};
use std::alloc::Global;
use std::marker::Model;

// The bytes of the number of the process.
const PROCESS_LENGTH: usize = 4;

/// A notification on a channel that this session listens to. Channel and payload are any bytes but
/// NUL. Documentation: "Message Formats", NotificationResponse (B).
#[derive(Drop)]
pub struct Notification {
    process_id: u32,
    // The channel, its NUL, and the payload.
    texts: Bytes,
    channel_len: usize,
}

impl Model for Notification {
    ghost use Rattle.std.specs.Prelude.{◌<◌, length};
    ghost use Rattle.pg_format.specs.Messages.{Notification};
    ghost use Rattle.pg_receive.specs.Notification.{notification_in};

    ghost Value = { Notification };

    ghost view = { λ n. notification_in n.process_id n.texts n.channel_len };

    ghost invariant = { λ n. n.channel_len < length n.texts };
}

impl Notification {
    /// The process that notified.
    pub fn process_id(&self) -> u32
        ensures { result ≡ self.now.process_id }
    {
        self.process_id
    }

    /// The channel, without its NUL.
    pub fn channel(&self) -> &[u8]
        ensures { result.now ≡ self.now.channel }
    {
        &self.texts.as_slice()[..self.channel_len]
    }

    /// The payload, without its NUL.
    pub fn payload(&self) -> &[u8]
        ensures { result.now ≡ self.now.payload }
    {
        &self.texts.as_slice()[self.channel_len + 1..]
    }

    /// The same notification, which shares the bytes of this one. Refused with `OutOfMemory` alone.
    pub fn clone(&self) -> Result<Self, Error>
        ensures same { IfOk result (λ other. other ≡ self.now) }
        ensures err { IfErr result (λ error. error ≡ OutOfMemory) }
    {
        Ok(Notification {
            process_id: self.process_id,
            texts: self.texts.clone()?,
            channel_len: self.channel_len,
        })
    }
}

impl BackendMessage for Notification {
    ghost use Rattle.pg_format.specs.Messages.{Notification, notification};
    ghost use Rattle.pg_format.proofs.FormatLaws.FromServer.{lawful_notification};

    const FORMAT: BackendMessageFormat = BackendMessageFormat::NotificationResponse;

    ghost FORMAT = { formats.NotificationResponse };

    ghost Shown = { Notification };

    ghost shown = { λ n. n };

    ghost format = { notification };

    ghost NeedsNoMemory = { λ _. Unit {0} };

    fn decode_body(_alloc: Global, mut buf: Bytes) -> Result<Self, Error> {
        let NotificationRef {
            process_id,
            channel,
            payload,
        } = NotificationRef::read(buf.as_slice())?;
        let channel_len = channel.len();
        let texts_len = channel_len + 1 + payload.len();
        buf.advance(PROCESS_LENGTH);
        buf.truncate(texts_len);
        Ok(Notification {
            process_id,
            texts: buf,
            channel_len,
        })
    }

    ghost lawful = { lawful_notification };
}

/// A [`Notification`] that is borrowed from the body of its message.
#[derive(Drop)]
pub struct NotificationRef<'a> {
    /// The process that notified.
    pub process_id: u32,
    /// The channel, without its NUL.
    pub channel: &'a [u8],
    /// The payload, without its NUL.
    pub payload: &'a [u8],
}

impl<'a> NotificationRef<'a> {
    /// Reads a body. Its value and its faults are those of [`Notification`].
    pub fn read(body: &'a [u8]) -> Result<NotificationRef<'a>, ProtocolFault>
        ensures { ReadsAs notification notification_borrowed body.now result }
    {
        let process_id = u32_at(body, 0)?;
        let (channel, after) = text_at(body, PROCESS_LENGTH)?;
        let (payload, _) = text_at(body, after)?;
        Ok(NotificationRef {
            process_id,
            channel,
            payload,
        })
    }
}
