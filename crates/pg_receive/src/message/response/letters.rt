//! The letters of fields, and where the first field of each is in a body. Documentation: "Error and
//! Notice Message Fields".

ghost use Rattle.std.specs.Prelude.{◌≡◌, ◌≤◌, ◌<◌, ℕ, List, option_copied, IfSome, IfNone};
ghost use Rattle.pg_base.specs.Reading.{HoldsNo};
ghost use Rattle.pg_receive.specs.Response.Fields.{fields_in, first_value};
ghost use Rattle.pg_receive.specs.Response.FirstPlaces.{AreFirst, AreAllFirst, IsSlotOf, KeepsField, known_letters};

use crate::message::parts::Fields;
use pg_base::io::MAX_BODY;
use std::ops::Range;

/// The severity.
pub(crate) const SEVERITY: u8 = b'V';

/// The severity in the language of the server's messages.
pub(crate) const LOCALIZED_SEVERITY: u8 = b'S';

/// The code.
pub(crate) const CODE: u8 = b'C';

/// The message.
pub(crate) const MESSAGE: u8 = b'M';

/// More about the problem.
pub(crate) const DETAIL: u8 = b'D';

/// What may be done.
pub(crate) const HINT: u8 = b'H';

/// A position in the query of the client.
pub(crate) const POSITION: u8 = b'P';

/// A position in a query of the server.
pub(crate) const INTERNAL_POSITION: u8 = b'p';

/// That query.
pub(crate) const INTERNAL_QUERY: u8 = b'q';

/// What the server was doing.
pub(crate) const WHERE: u8 = b'W';

/// The schema.
pub(crate) const SCHEMA: u8 = b's';

/// The table.
pub(crate) const TABLE: u8 = b't';

/// The column.
pub(crate) const COLUMN: u8 = b'c';

/// The data type.
pub(crate) const DATA_TYPE: u8 = b'd';

/// The constraint.
pub(crate) const CONSTRAINT: u8 = b'n';

/// The file of the server's source.
pub(crate) const FILE: u8 = b'F';

/// The line in that file.
pub(crate) const LINE: u8 = b'L';

/// The routine.
pub(crate) const ROUTINE: u8 = b'R';

// How many letters there are.
const KNOWN: usize = 18;

/// The place of the first field of each letter in a body, and 0 to 0 where there is none.
#[derive(Drop)]
pub(crate) struct FirstPlaces {
    pub(crate) starts: [u32; KNOWN],
    pub(crate) ends: [u32; KNOWN],
}

impl FirstPlaces {
    /// Of no field.
    pub(crate) fn new() -> FirstPlaces
        ensures { (body : List ℕ) → AreFirst body (fields_in body) result.starts result.ends }
    {
        FirstPlaces {
            starts: [0; KNOWN],
            ends: [0; KNOWN],
        }
    }

    /// Keeps the place of the value of a field, where it is the first of its letter.
    pub(crate) fn keep(&mut self, letter: u8, place: &Range<usize>)
        requires after_letter { 0 < place.now.start }
        requires ordered { place.now.start ≤ place.now.end }
        requires fits { place.now.end ≤ MAX_BODY }
        ensures { KeepsField letter place.now self.old self.new }
    {
        let Some(slot) = slot_of(letter) else {
            return;
        };
        if self.starts[slot] == 0 {
            self.starts[slot] = place.start as u32;
            self.ends[slot] = place.end as u32;
        }
    }

    /// The value of the first field of a letter, in the body that these are places of.
    #[inline(always)]
    pub(crate) fn value_in<'a>(&self, body: &'a [u8], wanted: u8) -> Option<&'a [u8]>
        requires { AreAllFirst body.now self.now }
        ensures { option_copied result ≡ first_value wanted (fields_in body.now) }
    {
        let Some(slot) = slot_of(wanted) else {
            return value_of(Fields::new(body), wanted);
        };
        let start = self.starts[slot] as usize;
        if start == 0 {
            return None;
        }
        Some(&body[start..self.ends[slot] as usize])
    }
}

// The slot of a letter among those that are known.
// Inlined, so that it is known where the letter is.
#[inline(always)]
fn slot_of(letter: u8) -> Option<usize>
    ensures known { IfSome result (IsSlotOf letter) }
    ensures unknown { IfNone result (HoldsNo letter known_letters) }
{
    Some(match letter {
        SEVERITY => 0,
        LOCALIZED_SEVERITY => 1,
        CODE => 2,
        MESSAGE => 3,
        DETAIL => 4,
        HINT => 5,
        POSITION => 6,
        INTERNAL_POSITION => 7,
        INTERNAL_QUERY => 8,
        WHERE => 9,
        SCHEMA => 10,
        TABLE => 11,
        COLUMN => 12,
        DATA_TYPE => 13,
        CONSTRAINT => 14,
        FILE => 15,
        LINE => 16,
        ROUTINE => 17,
        _ => return None,
    })
}

// The value of the first of some fields that has a letter.
fn value_of<'a>(fields: Fields<'a>, wanted: u8) -> Option<&'a [u8]>
    ensures { option_copied result ≡ first_value wanted fields.entry }
{
    for (letter, value) in fields {
        if letter == wanted {
            return Some(value);
        }
    }
    None
}
