//! The value of a column.

ghost use Rattle.std.specs.Prelude.{◌≡◌, ◌≤◌, length, None, IfErr};
ghost use Rattle.pg_format.specs.Format.Places.{BreaksAt, ReadsAt};
ghost use Rattle.pg_format.specs.Logical as page;
ghost use Rattle.pg_replication.specs.Logical.Tuple.{shown_datum, shown_text, kind_fault, kinds_fault};

use pg_base::ProtocolFault;
use pg_base::io::part::{Byte, Either, Then};
use pg_base::io::{MAX_BODY, u8_at};
use pg_format::field::SizedBytes;
use pg_format::items::Item;
use pg_server::backend::OutboundItem;

const NULL: u8 = b'n';

const UNCHANGED: u8 = b'u';

const TEXT: u8 = b't';

const BINARY: u8 = b'b';

/// The value of a column. Documentation: "Logical Replication Message Formats", TupleData.
#[derive(Clone, Copy, Debug, PartialEq, Eq)]
pub enum Datum<'a> {
    /// NULL, or in a key a column that isn't part of it.
    Null,
    /// A large value that wasn't changed, and isn't sent.
    Unchanged,
    /// The value as text.
    Text(&'a [u8]),
    /// The value in the binary format of its type.
    Binary(&'a [u8]),
}

/// A value as it is written, in the layout of C, so that rows of C are walked where they are. `kind` is `n` for
/// [`Datum::Null`], `u` for [`Datum::Unchanged`], `t` for [`Datum::Text`], and `b` for [`Datum::Binary`].
#[repr(C)]
#[derive(Clone, Copy, Debug, PartialEq, Eq)]
pub struct OutboundDatum<'a> {
    /// The letter of its kind.
    pub kind: u8,
    /// Its bytes; those of the first two kinds aren't looked at.
    pub value: &'a [u8],
}

impl<'a> OutboundDatum<'a> {
    /// This value, to be written.
    pub fn of(datum: Datum<'a>) -> OutboundDatum<'a>
        ensures known { kind_fault result ≡ None }
        ensures shown { shown_text result ≡ shown_datum datum.entry }
    {
        let (kind, value): (u8, &'a [u8]) = match datum {
            Datum::Null => (NULL, &[]),
            Datum::Unchanged => (UNCHANGED, &[]),
            Datum::Text(value) => (TEXT, value),
            Datum::Binary(value) => (BINARY, value),
        };
        OutboundDatum { kind, value }
    }

    // `UnknownLetter` for another kind.
    fn fault(&self) -> Option<ProtocolFault>
        ensures { result ≡ kind_fault self.now }
    {
        match self.kind {
            NULL | UNCHANGED | TEXT | BINARY => None,
            other => Some(ProtocolFault::UnknownLetter(other)),
        }
    }

    /// The value, where its kind is known.
    pub(crate) fn datum(&self) -> Datum<'a>
        ensures { shown_datum result ≡ shown_text self.now }
    {
        match self.kind {
            NULL => Datum::Null,
            UNCHANGED => Datum::Unchanged,
            TEXT => Datum::Text(self.value),
            _ => Datum::Binary(self.value),
        }
    }
}

/// The fault of the first value of another kind.
pub(crate) fn kinds_fault(given: &[OutboundDatum<'_>]) -> Option<ProtocolFault>
    ensures { result ≡ kinds_fault given.now }
{
    for value in given {
        let fault = value.fault();
        if fault.is_some() {
            return fault;
        }
    }
    None
}

impl<'a> Item<'a> for Datum<'a> {
    ghost Shown = { page.Datum };

    ghost shown = { shown_datum };

    ghost format = { page.datum };

    #[inline(always)]
    #[tactic(auto, using(crate::proofs::LogicalTupleLemmas::lettered_reads))]
    fn item_at(body: &'a [u8], at: usize) -> Result<(Datum<'a>, usize), ProtocolFault> {
        let letter = u8_at(body, at)?;
        datum_by(letter, body, at + 1)
    }
}

// What follows a letter, at an offset.
fn datum_by(letter: u8, body: &[u8], at: usize) -> Result<(Datum<'_>, usize), ProtocolFault>
    requires within { at ≤ length body.now }
    requires short { length body.now ≤ MAX_BODY }
    ensures datum { ReadsAt (page.datum_by letter) shown_datum body.now at result }
    ensures broken { IfErr result (BreaksAt (page.datum_by letter) body.now at) }
{
    match letter {
        NULL => Ok((Datum::Null, at)),
        UNCHANGED => Ok((Datum::Unchanged, at)),
        TEXT => {
            let (SizedBytes(value), end) = SizedBytes::item_at(body, at)?;
            Ok((Datum::Text(value), end))
        }
        BINARY => {
            let (SizedBytes(value), end) = SizedBytes::item_at(body, at)?;
            Ok((Datum::Binary(value), end))
        }
        other => Err(ProtocolFault::UnknownLetter(other)),
    }
}

/// The letter, and the value where one is sent.
pub type DatumParts<'a> = Either<Byte, Then<Byte, SizedBytes<'a>>>;

impl<'a> OutboundItem for Datum<'a> {
    type Parts = DatumParts<'a>;

    ghost use Rattle.std.specs.Prelude.{false};

    ghost Value = { page.Datum };

    ghost value = { shown_datum };

    ghost format = { page.datum };

    ghost is_broken = { λ _. false };

    ghost IsInRange = { λ _. Unit {0} };

    #[inline(always)]
    fn parts(&self) -> DatumParts<'a> {
        match *self {
            Datum::Null => Either::First(Byte(NULL)),
            Datum::Unchanged => Either::First(Byte(UNCHANGED)),
            Datum::Text(value) => Either::Second(Then(Byte(TEXT), SizedBytes(value))),
            Datum::Binary(value) => Either::Second(Then(Byte(BINARY), SizedBytes(value))),
        }
    }
}
