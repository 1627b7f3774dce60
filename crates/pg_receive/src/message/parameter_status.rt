//! A setting of the server.

ghost use Rattle.pg_base.specs.declared.format.BackendMessageFormat.TheVariants as formats;
ghost use Rattle.pg_format.specs.Format.{ReadsAs};
ghost use Rattle.pg_format.specs.Messages.{parameter_status};
ghost use Rattle.pg_receive.specs.ParameterStatus.{SettingNeedsNoMemory, raw_parameter_status, setting_shown, setting_borrowed, raw_setting};
ghost use Rattle.pg_format.specs.Received.{DecodesBody};

use crate::message::{BackendMessage, str_at, text_at};
use bytes::Bytes;
use pg_base::{BackendMessageFormat, Error, ProtocolFault};
use std::alloc::Global;

/// A setting of the server and its value, reported at the start and whenever it changes.
/// Documentation: "Message Formats", ParameterStatus (B).
#[derive(Drop)]
pub struct ParameterStatus {
    /// The setting.
    pub name: String,
    /// Its value.
    pub value: String,
}

impl BackendMessage for ParameterStatus {
    ghost use Rattle.pg_format.specs.Messages.{Setting, parameter_status};
    ghost use Rattle.pg_format.proofs.FormatLaws.FromServer.{lawful_parameter_status};
    ghost use Rattle.pg_receive.specs.ParameterStatus.{setting_shown, SettingNeedsNoMemory};

    const FORMAT: BackendMessageFormat = BackendMessageFormat::ParameterStatus;

    ghost FORMAT = { formats.ParameterStatus };

    ghost Shown = { Setting };

    ghost shown = { setting_shown };

    ghost format = { parameter_status };

    ghost NeedsNoMemory = { SettingNeedsNoMemory };

    fn decode_body(alloc: Global, buf: Bytes) -> Result<Self, Error> {
        setting_of(alloc, buf.as_slice())
    }

    ghost lawful = { lawful_parameter_status };
}

fn setting_of(alloc: Global, body: &[u8]) -> Result<ParameterStatus, Error>
    ensures { DecodesBody parameter_status SettingNeedsNoMemory setting_shown body.now result }
{
    let ParameterStatusRef { name, value } = ParameterStatusRef::read(body)?;
    Ok(ParameterStatus {
        name: String::from_str(alloc, name)?,
        value: String::from_str(alloc, value)?,
    })
}

/// A [`ParameterStatus`] that is borrowed from the body of its message.
#[derive(Drop)]
pub struct ParameterStatusRef<'a> {
    /// The setting.
    pub name: &'a str,
    /// Its value.
    pub value: &'a str,
}

impl<'a> ParameterStatusRef<'a> {
    /// Reads a body. Its value and its faults are those of [`ParameterStatus`].
    pub fn read(body: &'a [u8]) -> Result<ParameterStatusRef<'a>, ProtocolFault>
        ensures { ReadsAs parameter_status setting_borrowed body.now result }
    {
        let (name, after) = str_at(body, 0)?;
        let (value, _) = str_at(body, after)?;
        Ok(ParameterStatusRef { name, value })
    }
}

/// A setting of the server and its value in the server's encoding, which need not be UTF-8, borrowed
/// from the body of their message. Documentation: "Message Formats", ParameterStatus (B).
#[derive(Drop)]
pub struct RawParameterStatus<'a> {
    /// The setting.
    pub name: &'a [u8],
    /// Its value.
    pub value: &'a [u8],
}

impl<'a> RawParameterStatus<'a> {
    /// Reads a body. Refused with `MissingNul` where a text has no end.
    pub fn read(body: &'a [u8]) -> Result<RawParameterStatus<'a>, ProtocolFault>
        ensures { ReadsAs raw_parameter_status raw_setting body.now result }
    {
        let (name, after) = text_at(body, 0)?;
        let (value, _) = text_at(body, after)?;
        Ok(RawParameterStatus { name, value })
    }
}
