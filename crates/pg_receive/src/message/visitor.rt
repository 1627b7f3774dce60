//! What is done with a message as soon as its kind is known.

ghost use Rattle.std.specs.Prelude.{◌≡◌};
ghost use Rattle.pg_receive.specs.declared.message.server_message.ServerMessage.{ServerMessage};

use crate::message::ServerMessage;

/// Takes a message of any kind, for [`ServerMessage::visit`].
pub trait Visitor: Drop {
    /// What it makes of a message.
    type Output;

    /// What it may make of a message.
    ghost gives: { Self → ServerMessage → Self.Output → Type 0 };

    /// Takes the message.
    fn visit(self, message: ServerMessage) -> Self::Output
        ensures { gives self message result };
}

// Gives the message as it is.
#[derive(Drop)]
pub struct Keep;

impl Visitor for Keep {
    type Output = ServerMessage;

    ghost gives = { λ _ message kept. kept ≡ message };

    #[inline(always)]
    fn visit(self, message: ServerMessage) -> ServerMessage {
        message
    }
}
