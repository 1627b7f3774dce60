//! The part of an error or a notice that is read when it is decoded.

ghost use Rattle.std.specs.Prelude.{◌≡◌, ◌≤◌, true, false, length, IfOk, OnOk, IfErr};
ghost use Rattle.std.specs.Str.{is_utf8};
ghost use Rattle.pg_receive.specs.Response.FirstPlaces.{AreAllFirst};
ghost use Rattle.std.specs.Option.{option_or, unwrap_or};
ghost use Rattle.pg_receive.specs.declared.message.response.severity.PgSeverity.TheVariants.{Log};
ghost use Rattle.pg_base.specs.declared.error.ProtocolFault.TheVariants.{NoticeNotUtf8};
ghost use Rattle.pg_format.specs.Format.{IsFaultOf};
ghost use Rattle.pg_receive.specs.Response.{notices};
ghost use Rattle.pg_receive.specs.Response.Places.{are_full};
ghost use Rattle.pg_receive.specs.Response.ReadPart.{IsComplete, TakesField, RefusesField, HasPlacesIn, IsReadOf};

use crate::message::response::PgSeverity;
use crate::message::response::letters::{CODE, FirstPlaces, LOCALIZED_SEVERITY, MESSAGE, SEVERITY};
use crate::message::{split_field, utf8_text};
use pg_base::ProtocolFault;
use pg_base::io::MAX_BODY;
use std::ops::Range;

/// What the fields that are read say. The ranges are of offsets in the body.
#[derive(Drop)]
pub(crate) struct ReadPart {
    pub(crate) severity: Option<PgSeverity>,
    pub(crate) localized: Option<PgSeverity>,
    pub(crate) message: Range<usize>,
    pub(crate) code: Range<usize>,
}

impl ReadPart {
    // Whether there are a message and a code.
    fn is_full(&self) -> bool
        ensures { result ≡ are_full self.now.message self.now.code }
    {
        !self.message.is_empty() && !self.code.is_empty()
    }

    /// The severity, or the localized one where that is a word, or else Log.
    pub(crate) fn severity(&self) -> PgSeverity
        ensures { result ≡ unwrap_or (option_or self.now.severity self.now.localized) Log }
    {
        self.severity.or(self.localized).unwrap_or(PgSeverity::Log)
    }

    // Takes in a field whose value is at this place, unless there are a message and a code.
    #[tactic(auto, using(crate::proofs::ResponseSeverityLemmas::unknown_severity))]
    fn take(&mut self, letter: u8, value: &[u8], place: Range<usize>) -> Result<(), ProtocolFault>
        ensures full { OnOk result (IsComplete self.old → self.new ≡ self.old) }
        ensures takes { OnOk result (TakesField letter value.now place self.old self.new) }
        ensures fault { IfErr result (RefusesField letter value.now self.old) }
    {
        if self.is_full() {
            return Ok(());
        }
        match letter {
            SEVERITY => {
                let severity = PgSeverity::from_word(notice_text(value)?);
                self.severity = Some(severity.ok_or(ProtocolFault::UnknownSeverity)?);
            }
            LOCALIZED_SEVERITY => self.localized = PgSeverity::from_word(notice_text(value)?),
            MESSAGE => {
                notice_text(value)?;
                self.message = place;
            }
            CODE => {
                notice_text(value)?;
                self.code = place;
            }
            _ => {}
        }
        Ok(())
    }
}

fn notice_text(value: &[u8]) -> Result<&str, ProtocolFault>
    ensures text { IfOk result (λ text. (text.now ≡ value.now) × (is_utf8 value.now ≡ true)) }
    ensures fault { IfErr result (λ fault. (fault ≡ NoticeNotUtf8) × (is_utf8 value.now ≡ false)) }
{
    utf8_text(value).ok_or(ProtocolFault::NoticeNotUtf8)
}

/// Reads a body up to the first field after which the last message and the last code aren't
/// empty, or else all its fields, and keeps where the first field of each letter is, up to the last.
/// The first fault of a field that is read is answered.
pub(crate) fn read(body: &[u8]) -> Result<(ReadPart, FirstPlaces), ProtocolFault>
    requires { length body.now ≤ MAX_BODY }
    ensures within { IfOk result (λ read. HasPlacesIn body.now read.0) }
    ensures reads { IfOk result (λ read. IsReadOf body.now read.0) }
    ensures firsts { IfOk result (λ read. AreAllFirst body.now read.1) }
    ensures fault { IfErr result (IsFaultOf notices body.now) }
{
    let mut part = ReadPart {
        severity: None,
        localized: None,
        message: 0..0,
        code: 0..0,
    };
    let mut firsts = FirstPlaces::new();
    let mut rest = body;
    while let Some((letter, value, after)) = split_field(rest) {
        let start = body.len() - rest.len() + 1;
        let place = start..start + value.len();
        firsts.keep(letter, &place);
        part.take(letter, value, place)?;
        rest = after;
    }
    Ok((part, firsts))
}
