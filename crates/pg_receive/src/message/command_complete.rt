//! A command that is done.

ghost use Rattle.std.specs.Prelude.{◌≡◌, ℕ, List};
ghost use Rattle.pg_base.specs.declared.format.BackendMessageFormat.TheVariants as formats;
ghost use Rattle.pg_receive.specs.CommandComplete.{row_count, tag_text};
ghost use Rattle.pg_format.specs.Format.{ReadsAs};

use crate::message::{BackendMessage, leading_u64, text_at};
use bytes::Bytes;
use memchr::memrchr;
use pg_base::{BackendMessageFormat, Error, ProtocolFault};
use std::alloc::Global;
use std::marker::Model;

const SPACE: u8 = b' ';

/// A command is done; its tag says which, and mostly how many rows it had to do with.
/// Documentation: "Message Formats", CommandComplete (B).
#[derive(Drop)]
pub struct CommandComplete {
    tag: Bytes,
}

impl Model for CommandComplete {
    ghost Value = { List ℕ };

    ghost view = { λ done. done.tag };
}

impl CommandComplete {
    /// How many rows the command had to do with: the number after the last space of its body, and 0
    /// where there is none, or one above 18446744073709551615.
    #[inline(always)]
    pub fn rows_affected(&self) -> u64
        ensures { result ≡ row_count self.now }
    {
        rows_affected(self.tag.as_slice())
    }
}

impl BackendMessage for CommandComplete {
    ghost use Rattle.std.specs.Prelude.{ℕ, List};
    ghost use Rattle.pg_format.specs.Messages.{command_complete};
    ghost use Rattle.pg_format.proofs.FormatLaws.Parts.{lawful_remaining};

    const FORMAT: BackendMessageFormat = BackendMessageFormat::CommandComplete;

    ghost FORMAT = { formats.CommandComplete };

    ghost Shown = { List ℕ };

    ghost shown = { λ done. done };

    ghost format = { command_complete };

    ghost NeedsNoMemory = { λ _. Unit {0} };

    fn decode_body(_alloc: Global, buf: Bytes) -> Result<Self, Error> {
        Ok(CommandComplete { tag: buf })
    }

    ghost lawful = { lawful_remaining };
}

/// The tag of the command whose message has this body: the text that the first NUL ends, as bytes. What
/// follows the NUL isn't looked at. Refused with `MissingNul` where there is none.
pub fn command_tag(body: &[u8]) -> Result<&[u8], ProtocolFault>
    ensures { ReadsAs tag_text (λ tag. tag.now) body.now result }
{
    let (tag, _) = text_at(body, 0)?;
    Ok(tag)
}

/// How many rows the command had to do with whose message has this body: what
/// [`CommandComplete::rows_affected`] gives.
#[inline(always)]
pub fn rows_affected(tag: &[u8]) -> u64
    ensures { result ≡ row_count tag.now }
{
    match memrchr(SPACE, tag) {
        Some(space) => leading_u64(&tag[space + 1..]).unwrap_or(0),
        None => 0,
    }
}
