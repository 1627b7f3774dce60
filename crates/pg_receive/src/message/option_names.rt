//! The names of options that a server doesn't know.

ghost use Rattle.std.specs.Prelude.{◌≡◌, ◌==◌, ◌≤◌, length, IfErr};
ghost use Rattle.std.specs.Iterator.{YieldsFirstBy, item_count};
ghost use Rattle.pg_format.specs.Format.Lists.{times};
ghost use Rattle.pg_format.specs.Format.Parts.{until_nul};
ghost use Rattle.pg_format.specs.Format.Places.{BreaksAt, ReadsAt};
ghost use Rattle.pg_format.specs.Listed.{values_in};
ghost use Rattle.pg_format.specs.Received.{max_body};
ghost use Rattle.pg_format.proofs.FormatLaws.Parts.{total_until_nul};

use pg_base::ProtocolFault;
use pg_base::io::{Ended, MAX_BODY};
use pg_format::items::{Discard, Item, Items};

/// The names of options in order, borrowed from their message. A copy is walked on its own.
#[derive(Clone, Copy)]
pub struct OptionNames<'a> {
    // From the next name on.
    bytes: &'a [u8],
    left: usize,
    ghost short: { length bytes.now ≤ max_body },
    ghost whole: { length (values_in total_until_nul left bytes.now) ≡ left },
}

impl<'a> OptionNames<'a> {
    ghost use Rattle.pg_receive.specs.OptionNames.{option_names};

    /// So many names at an offset of a body, and the offset after them.
    pub(crate) fn read(
        body: &'a [u8],
        at: usize,
        left: usize,
    ) -> Result<(OptionNames<'a>, usize), ProtocolFault>
        requires within { at ≤ length body.now }
        requires short { length body.now ≤ MAX_BODY }
        ensures names { ReadsAt (times left until_nul) option_names body.now at result }
        ensures broken { IfErr result (BreaksAt (times left until_nul) body.now at) }
    {
        let items = Items::begin_at(body, at, left);
        let end = items.read_all::<Ended<&'a [u8]>, Discard>(&mut Discard)?;
        let bytes = &body[at..];
        Ok((OptionNames { bytes, left }, end))
    }

    /// How many names are left.
    pub fn len(&self) -> usize
        ensures { result ≡ length (option_names self.now) }
    {
        self.left
    }

    /// Whether no names are left.
    pub fn is_empty(&self) -> bool
        ensures { result ≡ (length (option_names self.now) == 0) }
    {
        self.left == 0
    }
}

impl<'a> Iterator for OptionNames<'a> {
    ghost use Rattle.pg_receive.specs.OptionNames.{option_names};

    type Item = &'a [u8];

    ghost next_gives = { YieldsFirstBy (λ name. name.now) option_names };

    ghost remaining = { item_count option_names };

    fn next(&mut self) -> Option<&'a [u8]> {
        if self.left == 0 {
            return None;
        }
        let Ok((Ended(name), end)) = Ended::<&'a [u8]>::item_at(self.bytes, 0) else {
            return None;
        };
        *self = OptionNames {
            bytes: &self.bytes[end..],
            left: self.left - 1,
        };
        Some(name)
    }
}
