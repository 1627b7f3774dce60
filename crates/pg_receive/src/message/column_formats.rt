//! The format codes of the columns of a COPY.

ghost use Rattle.std.specs.Prelude.{◌≡◌, ◌==◌, ◌≤◌, length, IfErr};
ghost use Rattle.std.specs.Iterator.{YieldsFirstBy, item_count};
ghost use Rattle.pg_format.specs.Format.Lists.{times};
ghost use Rattle.pg_format.specs.Format.Parts.{be_i16};
ghost use Rattle.pg_format.specs.Format.Places.{BreaksAt, ReadsAt};
ghost use Rattle.pg_format.specs.Listed.{values_in};
ghost use Rattle.pg_format.specs.Received.{max_body};
ghost use Rattle.pg_format.proofs.FormatLaws.Parts.{total_signed};

use pg_base::ProtocolFault;
use pg_base::io::MAX_BODY;
use pg_format::field::Signed16;
use pg_format::items::{Discard, Item, Items};

/// The format codes of columns in order, borrowed from their message. A copy is walked on its own.
#[derive(Clone, Copy)]
pub struct ColumnFormats<'a> {
    // From the next code on.
    bytes: &'a [u8],
    left: usize,
    ghost short: { length bytes.now ≤ max_body },
    ghost whole: { length (values_in (total_signed 2) left bytes.now) ≡ left },
}

impl<'a> ColumnFormats<'a> {
    ghost use Rattle.pg_receive.specs.ColumnFormats.{column_formats};

    /// So many codes at an offset of a body, and the offset after them.
    pub(crate) fn read(
        body: &'a [u8],
        at: usize,
        left: usize,
    ) -> Result<(ColumnFormats<'a>, usize), ProtocolFault>
        requires within { at ≤ length body.now }
        requires short { length body.now ≤ MAX_BODY }
        ensures codes { ReadsAt (times left be_i16) column_formats body.now at result }
        ensures broken { IfErr result (BreaksAt (times left be_i16) body.now at) }
    {
        let items = Items::begin_at(body, at, left);
        let end = items.read_all::<Signed16, Discard>(&mut Discard)?;
        let bytes = &body[at..];
        Ok((ColumnFormats { bytes, left }, end))
    }

    /// How many codes are left.
    pub fn len(&self) -> usize
        ensures { result ≡ length (column_formats self.now) }
    {
        self.left
    }

    /// Whether no codes are left.
    pub fn is_empty(&self) -> bool
        ensures { result ≡ (length (column_formats self.now) == 0) }
    {
        self.left == 0
    }
}

impl<'a> Iterator for ColumnFormats<'a> {
    ghost use Rattle.pg_receive.specs.ColumnFormats.{column_formats};

    type Item = i16;

    ghost next_gives = { YieldsFirstBy (λ code. code) column_formats };

    ghost remaining = { item_count column_formats };

    fn next(&mut self) -> Option<i16> {
        if self.left == 0 {
            return None;
        }
        let Ok((Signed16(code), end)) = Signed16::item_at(self.bytes, 0) else {
            return None;
        };
        *self = ColumnFormats {
            bytes: &self.bytes[end..],
            left: self.left - 1,
        };
        Some(code)
    }
}
