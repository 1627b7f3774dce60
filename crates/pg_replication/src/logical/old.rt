//! What is sent of a row before its change.

ghost use Rattle.std.specs.Prelude.{◌≤◌, length, IfErr};
ghost use Rattle.pg_format.specs.Format.Places.{BreaksAt, ReadsAt};
ghost use Rattle.pg_format.specs.Logical as page;
ghost use Rattle.pg_replication.specs.Logical.Old.{shown_old};

use crate::logical::Tuple;
use pg_base::ProtocolFault;
use pg_base::io::part::Part;
use pg_base::io::{MAX_BODY, Sink, u8_at};
use pg_format::items::Item;

const KEY: u8 = b'K';

const WHOLE: u8 = b'O';

const NEW: u8 = b'N';

/// What is sent of a row before its change. Documentation: "Logical Replication Message Formats", Update and Delete.
#[derive(Clone, Copy)]
pub enum Old<'a> {
    /// The columns of its key; the others are NULL.
    Key(Tuple<'a>),
    /// All columns, of a table whose replica identity is FULL.
    Whole(Tuple<'a>),
}

impl<'a> Item<'a> for Old<'a> {
    ghost Shown = { page.Old };

    ghost shown = { shown_old };

    ghost format = { page.old_tuple };

    #[tactic(auto, using(crate::proofs::LogicalTupleLemmas::lettered_reads))]
    fn item_at(body: &'a [u8], at: usize) -> Result<(Old<'a>, usize), ProtocolFault> {
        let letter = u8_at(body, at)?;
        old_by(letter, body, at + 1)
    }
}

// What follows a letter, at an offset.
fn old_by(letter: u8, body: &[u8], at: usize) -> Result<(Old<'_>, usize), ProtocolFault>
    requires within { at ≤ length body.now }
    requires short { length body.now ≤ MAX_BODY }
    ensures old { ReadsAt (page.old_by letter) shown_old body.now at result }
    ensures broken { IfErr result (BreaksAt (page.old_by letter) body.now at) }
{
    match letter {
        KEY => {
            let (tuple, end) = Tuple::item_at(body, at)?;
            Ok((Old::Key(tuple), end))
        }
        WHOLE => {
            let (tuple, end) = Tuple::item_at(body, at)?;
            Ok((Old::Whole(tuple), end))
        }
        other => Err(ProtocolFault::UnknownLetter(other)),
    }
}

/// What is sent of a row before its change, or nothing where the new row is all that is sent.
#[derive(Clone, Copy)]
pub(crate) struct OldOrNone<'a>(pub Option<Old<'a>>);

impl<'a> Item<'a> for OldOrNone<'a> {
    ghost use Rattle.std.specs.Prelude.{Option, option_map};
    ghost use Rattle.pg_format.specs.Format.Tests.{unless};

    ghost Shown = { Option page.Old };

    ghost shown = { λ it. option_map shown_old it.0 };

    ghost format = { unless 78 page.old_tuple };

    fn item_at(body: &'a [u8], at: usize) -> Result<(OldOrNone<'a>, usize), ProtocolFault> {
        if u8_at(body, at)? == NEW {
            return Ok((OldOrNone(None), at));
        }
        let (old, end) = Old::item_at(body, at)?;
        Ok((OldOrNone(Some(old)), end))
    }
}

/// The letter in front of the new row.
#[derive(Clone, Copy)]
pub(crate) struct NewLetter;

impl<'a> Item<'a> for NewLetter {
    ghost use Rattle.pg_format.specs.Replication.{letter};

    ghost Shown = { Unit {0} };

    ghost shown = { λ _. tt };

    ghost format = { letter 78 };

    #[inline(always)]
    #[tactic(auto, using(crate::proofs::LogicalTupleLemmas::letter_stands, crate::proofs::LogicalTupleLemmas::letter_breaks))]
    fn item_at(body: &'a [u8], at: usize) -> Result<(NewLetter, usize), ProtocolFault> {
        let letter = u8_at(body, at)?;
        if letter == NEW {
            return Ok((NewLetter, at + 1));
        }
        Err(ProtocolFault::UnknownLetter(letter))
    }
}

impl Part for Old<'_> {
    ghost use Rattle.pg_replication.specs.Logical.Encode.{old_part};

    ghost part = { λ it. old_part (shown_old it) };

    fn len(&self) -> usize {
        match self {
            Old::Key(tuple) | Old::Whole(tuple) => Part::len(tuple).saturating_add(1),
        }
    }

    fn fault(&self) -> Option<ProtocolFault> {
        match self {
            Old::Key(tuple) | Old::Whole(tuple) => tuple.fault(),
        }
    }

    fn put<S: Sink>(&self, sink: &mut S) {
        match self {
            Old::Key(tuple) => {
                sink.put_u8(KEY);
                tuple.put(sink);
            }
            Old::Whole(tuple) => {
                sink.put_u8(WHOLE);
                tuple.put(sink);
            }
        }
    }
}

impl Part for OldOrNone<'_> {
    ghost use Rattle.std.specs.Prelude.{option_map};
    ghost use Rattle.pg_replication.specs.Logical.Encode.{old_or_none_part};

    ghost part = { λ it. old_or_none_part (option_map shown_old it.0) };

    fn len(&self) -> usize {
        match &self.0 {
            Some(old) => old.len(),
            None => 0,
        }
    }

    fn fault(&self) -> Option<ProtocolFault> {
        match &self.0 {
            Some(old) => old.fault(),
            None => None,
        }
    }

    fn put<S: Sink>(&self, sink: &mut S) {
        if let Some(old) = &self.0 {
            old.put(sink);
        }
    }
}

impl Part for NewLetter {
    ghost use Rattle.pg_base.specs.Part.{byte};

    ghost part = { λ _. byte 78 };

    #[inline(always)]
    fn len(&self) -> usize {
        1
    }

    #[inline(always)]
    fn fault(&self) -> Option<ProtocolFault> {
        None
    }

    #[inline(always)]
    fn put<S: Sink>(&self, sink: &mut S) {
        sink.put_u8(NEW);
    }
}
