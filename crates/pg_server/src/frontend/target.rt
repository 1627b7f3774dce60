//! A prepared statement or a portal, as a Describe or a Close names the one or the other.

ghost use Rattle.pg_format.specs.Messages.{targeted};
ghost use Rattle.pg_server.specs.Frontend.Message.{GivesAt, ReadsBody};
ghost use Rattle.pg_server.specs.Frontend.Page.{shown_target, shown_targeted, target_format};

use crate::frontend::error::FrontendFault;
use crate::frontend::offsets::{bytes_at, end_at, text_at};

const STATEMENT: u8 = b'S';

const PORTAL: u8 = b'P';

/// Of what kind a name is.
#[derive(Clone, Copy, Debug, PartialEq, Eq)]
pub enum Target {
    /// A prepared statement.
    Statement,
    /// A portal.
    Portal,
}

/// A Describe or a Close that is borrowed from its body. Documentation: "Message Formats", Describe (F),
/// Close (F).
#[derive(Drop)]
pub struct TargetRef<'a> {
    /// Whether it names a statement or a portal.
    pub target: Target,
    /// The name: empty for the one without a name.
    pub name: &'a [u8],
}

impl<'a> TargetRef<'a> {
    /// Reads a body.
    pub fn read(body: &'a [u8]) -> Result<TargetRef<'a>, FrontendFault>
        ensures { ReadsBody targeted shown_targeted body.now result }
    {
        let (target, end) = letter_of(body)?;
        let (name, end) = text_at(body, end)?;
        end_at(body, end)?;
        Ok(TargetRef { target, name })
    }
}

// What the letter at the front of a body stands for.
fn letter_of(body: &[u8]) -> Result<(Target, usize), FrontendFault>
    ensures { GivesAt target_format shown_target body.now 0 result }
{
    let (letter, end) = bytes_at(body, 0, 1)?;
    match letter[0] {
        STATEMENT => Ok((Target::Statement, end)),
        PORTAL => Ok((Target::Portal, end)),
        letter => Err(FrontendFault::UnknownTarget(letter)),
    }
}
