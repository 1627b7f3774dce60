//! Notifications, settings, keys, and what a command and a session report of themselves.

ghost use Rattle.std.specs.Prelude.{◌≡◌, ◌≤ℤ◌, pos};
ghost use Rattle.pg_format.specs.Messages as page;
ghost use Rattle.pg_receive.specs.BackendKeyData.{raw_key};
ghost use Rattle.pg_receive.specs.CommandComplete.{tag_text};
ghost use Rattle.pg_receive.specs.Notification.{notification_borrowed};
ghost use Rattle.pg_receive.specs.ParameterStatus.{raw_parameter_status, raw_setting};
ghost use Rattle.pg_receive.specs.ReadyForQuery.{ready_shown};
ghost use Rattle.pg_c.specs.Read.{IfRead, ReadsBody, RefusesBody, LeavesRest, LeavesFault};
ghost use Rattle.pg_c.specs.Read.Status.{ReadsNotification, ReadsSetting, ReadsKey, ReadsCommand, IsStatusLetter};

use crate::place::PgmsgSpan;
use crate::read::check_body;
use crate::refusal::{PgmsgFault, report};
use pg_base::ProtocolFault;
use pg_receive::message::{
    NotificationRef, RawKeyData, RawParameterStatus, ReadyForQuery, command_tag, rows_affected,
};
use std::alloc::Global;

// The bytes of the number of a process.
const PROCESS_LENGTH: usize = 4;

/// A notification from another session.
#[repr(C)]
#[derive(Clone, Copy)]
pub struct PgmsgNotification {
    pub process_id: u32,
    pub channel: PgmsgSpan,
    pub payload: PgmsgSpan,
}

/// A setting of the server and its value, or one by which a client opens a session.
#[repr(C)]
#[derive(Clone, Copy)]
pub struct PgmsgParameterStatus {
    pub name: PgmsgSpan,
    pub value: PgmsgSpan,
}

/// The process that serves a session, and the key that a request to cancel has to name too, of 4 to 256
/// bytes.
#[repr(C)]
#[derive(Clone, Copy)]
pub struct PgmsgKeyData {
    pub process_id: u32,
    pub secret_key: PgmsgSpan,
}

/// What a command has done: the text of its tag, such as `INSERT 0 1`, and the number of rows, which is the number
/// after the last space of the tag, or 0 where there is none.
#[repr(C)]
#[derive(Clone, Copy)]
pub struct PgmsgCommand {
    pub tag: PgmsgSpan,
    pub rows: u64,
}

/// A notification, by the body of its NotificationResponse. 0, or why it is refused.
#[unsafe(no_mangle)]
pub extern "C" fn pgmsg_read_notification(
    alloc: Global,
    body: &[u8],
    notification: &mut PgmsgNotification,
    fault: &mut PgmsgFault,
) -> i32
    ensures result { result ≤ℤ pos 0 }
    ensures value { result ≡ pos 0 → ReadsNotification body.now notification.new }
    ensures fault { RefusesBody page.notification body.now fault.old fault.new result }
    ensures left { LeavesRest body.now fault.old fault.new notification.old notification.new result }
{
    match notification_of(body) {
        Ok(read) => {
            let channel = PgmsgSpan {
                at: PROCESS_LENGTH,
                len: read.channel.len(),
            };
            *notification = PgmsgNotification {
                process_id: read.process_id,
                channel,
                payload: PgmsgSpan {
                    at: channel.at + channel.len + 1,
                    len: read.payload.len(),
                },
            };
            0
        }
        Err(why) => report(alloc, why.into(), fault),
    }
}

fn notification_of(body: &[u8]) -> Result<NotificationRef<'_>, ProtocolFault>
    ensures { ReadsBody page.notification notification_borrowed body.now result }
{
    check_body(body)?;
    NotificationRef::read(body)
}

/// A setting of the server, by the body of its ParameterStatus. 0, or why it is refused.
#[unsafe(no_mangle)]
pub extern "C" fn pgmsg_read_parameter_status(
    alloc: Global,
    body: &[u8],
    status: &mut PgmsgParameterStatus,
    fault: &mut PgmsgFault,
) -> i32
    ensures result { result ≤ℤ pos 0 }
    ensures value { result ≡ pos 0 → ReadsSetting body.now status.new }
    ensures fault { RefusesBody raw_parameter_status body.now fault.old fault.new result }
    ensures left { LeavesRest body.now fault.old fault.new status.old status.new result }
{
    match setting_of(body) {
        Ok(read) => {
            *status = PgmsgParameterStatus {
                name: PgmsgSpan {
                    at: 0,
                    len: read.name.len(),
                },
                value: PgmsgSpan {
                    at: read.name.len() + 1,
                    len: read.value.len(),
                },
            };
            0
        }
        Err(why) => report(alloc, why.into(), fault),
    }
}

fn setting_of(body: &[u8]) -> Result<RawParameterStatus<'_>, ProtocolFault>
    ensures { ReadsBody raw_parameter_status raw_setting body.now result }
{
    check_body(body)?;
    RawParameterStatus::read(body)
}

/// What a request to cancel has to name, by the body of a BackendKeyData of any version: its key has 4
/// bytes in protocol 3.0, and up to 256 from 3.2 on. 0, or why it is refused.
#[unsafe(no_mangle)]
pub extern "C" fn pgmsg_read_key_data(
    alloc: Global,
    body: &[u8],
    key: &mut PgmsgKeyData,
    fault: &mut PgmsgFault,
) -> i32
    ensures result { result ≤ℤ pos 0 }
    ensures value { result ≡ pos 0 → ReadsKey body.now key.new }
    ensures fault { RefusesBody page.backend_key body.now fault.old fault.new result }
    ensures left { LeavesRest body.now fault.old fault.new key.old key.new result }
{
    match key_of(body) {
        Ok(read) => {
            *key = PgmsgKeyData {
                process_id: read.process_id,
                secret_key: PgmsgSpan {
                    at: PROCESS_LENGTH,
                    len: read.secret_key.len(),
                },
            };
            0
        }
        Err(why) => report(alloc, why.into(), fault),
    }
}

fn key_of(body: &[u8]) -> Result<RawKeyData<'_>, ProtocolFault>
    ensures { ReadsBody page.backend_key raw_key body.now result }
{
    check_body(body)?;
    RawKeyData::read(body)
}

/// What a command has done, by the body of its CommandComplete. 0, or why it is refused.
#[unsafe(no_mangle)]
#[tactic(auto, using(crate::proofs::PlaceLemmas::tag_at))]
pub extern "C" fn pgmsg_read_command_complete(
    alloc: Global,
    body: &[u8],
    command: &mut PgmsgCommand,
    fault: &mut PgmsgFault,
) -> i32
    ensures result { result ≤ℤ pos 0 }
    ensures value { result ≡ pos 0 → ReadsCommand body.now command.new }
    ensures fault { RefusesBody tag_text body.now fault.old fault.new result }
    ensures left { LeavesRest body.now fault.old fault.new command.old command.new result }
{
    match tag_of(body) {
        Ok(text) => {
            *command = PgmsgCommand {
                tag: PgmsgSpan {
                    at: 0,
                    len: text.len(),
                },
                rows: rows_affected(text),
            };
            0
        }
        Err(why) => report(alloc, why.into(), fault),
    }
}

fn tag_of(body: &[u8]) -> Result<&[u8], ProtocolFault>
    ensures { ReadsBody tag_text (λ tag. tag.now) body.now result }
{
    check_body(body)?;
    command_tag(body)
}

/// The letter of the transaction's status, by the body of a ReadyForQuery: I where none is open, T in
/// one, E in one that has failed.
#[unsafe(no_mangle)]
pub extern "C" fn pgmsg_read_ready(alloc: Global, body: &[u8], fault: &mut PgmsgFault) -> i32
    ensures value { IfRead result (IsStatusLetter body.now) }
    ensures fault { RefusesBody page.ready_for_query body.now fault.old fault.new result }
    ensures left { LeavesFault body.now fault.old fault.new result }
{
    match status_of(body) {
        Ok(ready) => ready.transaction_status as i32,
        Err(why) => report(alloc, why.into(), fault),
    }
}

fn status_of(body: &[u8]) -> Result<ReadyForQuery, ProtocolFault>
    ensures { ReadsBody page.ready_for_query ready_shown body.now result }
{
    check_body(body)?;
    ReadyForQuery::read(body)
}
