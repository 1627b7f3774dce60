//! Errors and notices of the server.

pub(crate) mod letters;
mod read;
mod severity;

ghost use Rattle.std.specs.Prelude.{◌≡◌, ◌<◌, ◌≤◌, Err, length, option_copied};
ghost use Rattle.pg_base.specs.declared.error.ProtocolFault.TheVariants.{BodyTooLong};
ghost use Rattle.pg_base.specs.declared.format.BackendMessageFormat.TheVariants as formats;
ghost use Rattle.pg_receive.specs.Response.FirstPlaces.{ArePlacesIn};
ghost use Rattle.pg_receive.specs.Response.Fields.{first_value, first_text};
ghost use Rattle.pg_receive.specs.Response.{NoticeValue, notice_in, notices, severities};
ghost use Rattle.pg_format.specs.Format.{Means, IsFaultOf, ReadsAs};
ghost use Rattle.pg_format.proofs.FormatLaws.FromServer.{lawful_notice};
ghost use Rattle.pg_format.proofs.FormatLaws.Sequences.{lawful_viewed};
ghost use Rattle.pg_format.proofs.FormatLaws.Whole.{one_meaning, meaning_or_fault};
ghost use Rattle.pg_receive.specs.Response.Places.{IsPlaceIn, bytes_in};

use crate::message::{BackendMessage, Fields, utf8_text};
use bytes::Bytes;
use letters::FirstPlaces;
use pg_base::io::{MAX_BODY, ProtocolDecode};
use pg_base::{BackendMessageFormat, Error, ProtocolFault};
pub use severity::PgSeverity;
use std::alloc::Global;
use std::marker::Model;
use std::ops::Range;

/// What the server wants its client to know: a warning, say. Documentation: "Message Formats",
/// NoticeResponse (B).
///
/// Its fields are read when it is decoded, until there are a message and a code that aren't empty,
/// or to their end. Severity, code and message are the last that were read.
#[derive(Drop)]
pub struct Notice {
    storage: Bytes,
    severity: PgSeverity,
    message: Range<usize>,
    code: Range<usize>,
    firsts: FirstPlaces,
}

impl Model for Notice {
    ghost Value = { NoticeValue };

    ghost view = { λ notice. notice_in notice.storage notice.severity notice.message notice.code };

    ghost invariant = { λ it. ArePlacesIn it.storage it.message it.code it.firsts };
}

impl Notice {
    /// How grave it is: the last severity that was read; without one the last severity in the
    /// server's language, where that is a known word; else `Log`. A severity after a message and a
    /// code isn't read.
    pub fn severity(&self) -> PgSeverity
        ensures { result ≡ self.now.severity }
    {
        self.severity
    }

    /// The last code that was read, empty where there is none. Documentation: "PostgreSQL Error
    /// Codes".
    pub fn code(&self) -> &str
        ensures { result.now ≡ self.now.code }
    {
        text_in(self.storage.as_slice(), &self.code)
    }

    /// The last message that was read, empty where there is none.
    pub fn message(&self) -> &str
        ensures { result.now ≡ self.now.message }
    {
        text_in(self.storage.as_slice(), &self.message)
    }

    /// The first field of a letter, where it is UTF-8. Documentation: "Error and Notice Message
    /// Fields".
    // Inlined with what it calls, so that a letter that is known is looked up when it is compiled.
    #[inline(always)]
    pub fn get(&self, wanted: u8) -> Option<&str>
        ensures { option_copied result ≡ first_text wanted self.now.fields }
    {
        utf8_text(self.get_raw(wanted)?)
    }

    /// As [`Notice::get`], but as bytes, which may be UTF-8 or not.
    #[inline(always)]
    pub fn get_raw(&self, wanted: u8) -> Option<&[u8]>
        ensures { option_copied result ≡ first_value wanted self.now.fields }
    {
        self.firsts.value_in(self.storage.as_slice(), wanted)
    }

    /// All fields, in order.
    pub fn fields(&self) -> Fields<'_>
        ensures { result ≡ self.now.fields }
    {
        Fields::new(self.storage.as_slice())
    }
}

impl ProtocolDecode for Notice {
    ghost Shown = { NoticeValue };

    ghost shown = { λ notice. notice };

    ghost Means = { Means notices };

    ghost IsFault = { IsFaultOf notices };

    ghost NeedsNoMemory = { λ _. Unit {0} };

    fn decode(_: Global, buf: Bytes) -> Result<Self, Error> {
        let (part, firsts) = read::read(buf.as_slice())?;
        Ok(Notice {
            firsts,
            severity: part.severity(),
            message: part.message,
            code: part.code,
            storage: buf,
        })
    }

    ghost one_value = { one_meaning (lawful_viewed _ lawful_notice) };

    ghost never_both = { meaning_or_fault (lawful_viewed _ lawful_notice) };
}

impl BackendMessage for Notice {
    const FORMAT: BackendMessageFormat = BackendMessageFormat::NoticeResponse;

    ghost FORMAT = { formats.NoticeResponse };

    ghost Shown = { NoticeValue };

    ghost shown = { λ notice. notice };

    ghost format = { notices };

    ghost NeedsNoMemory = { λ _. Unit {0} };

    fn decode_body(alloc: Global, buf: Bytes) -> Result<Self, Error> {
        Notice::decode(alloc, buf)
    }

    ghost lawful = { lawful_viewed _ lawful_notice };
}

/// How grave the error or notice is whose message has this body: what [`Notice::severity`] gives,
/// refused for the faults of [`Notice`]. It is `BodyTooLong` where the body has more than
/// [`MAX_BODY`] bytes.
pub fn severity_in(body: &[u8]) -> Result<PgSeverity, ProtocolFault>
    ensures long { MAX_BODY < length body.now → result ≡ Err (BodyTooLong (length body.now)) }
    ensures answer { length body.now ≤ MAX_BODY → ReadsAs severities (λ s. s) body.now result }
{
    if body.len() > MAX_BODY {
        return Err(ProtocolFault::BodyTooLong(body.len()));
    }
    let (part, _) = read::read(body)?;
    Ok(part.severity())
}

// The text at a place that was found to hold one.
fn text_in<'a>(body: &'a [u8], place: &Range<usize>) -> &'a str
    requires { IsPlaceIn body.now place.now }
    ensures { result.now ≡ bytes_in body.now place.now }
{
    unsafe { str::from_utf8_unchecked(&body[place.start..place.end]) }
}
