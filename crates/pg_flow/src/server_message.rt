//! What a message of a server is to the flow.

ghost use Rattle.std.specs.Prelude.{◌≡◌};
ghost use Rattle.pg_flow.specs.ServerMessage.{server_message};

use crate::answer::Answer;
use crate::transaction_status::TransactionStatus;

/// What a message of a server is to the flow.
#[derive(Clone, Copy, Debug, PartialEq, Eq)]
pub enum ServerMessage {
    /// A message that answers a request, but for ReadyForQuery.
    Answering(Answer),
    /// A ReadyForQuery.
    Readiness(TransactionStatus),
    /// A notice, a notification or a setting.
    Aside,
}

impl ServerMessage {
    /// The message with this tag, whose body begins with these bytes; of a ReadyForQuery the first byte is looked at. `None`
    /// where no message of the chapter begins so.
    pub fn of(tag: u8, first: &[u8]) -> Option<ServerMessage>
        ensures { result ≡ server_message tag first.now }
    {
        match tag {
            b'1' => Some(ServerMessage::Answering(Answer::ParseComplete)),
            b'2' => Some(ServerMessage::Answering(Answer::BindComplete)),
            b'3' => Some(ServerMessage::Answering(Answer::CloseComplete)),
            b't' => Some(ServerMessage::Answering(Answer::ParameterDescription)),
            b'T' => Some(ServerMessage::Answering(Answer::RowDescription)),
            b'n' => Some(ServerMessage::Answering(Answer::NoData)),
            b'D' => Some(ServerMessage::Answering(Answer::DataRow)),
            b'C' => Some(ServerMessage::Answering(Answer::CommandComplete)),
            b'I' => Some(ServerMessage::Answering(Answer::EmptyQuery)),
            b's' => Some(ServerMessage::Answering(Answer::PortalSuspended)),
            b'G' => Some(ServerMessage::Answering(Answer::CopyIn)),
            b'H' => Some(ServerMessage::Answering(Answer::CopyOut)),
            b'W' => Some(ServerMessage::Answering(Answer::CopyBoth)),
            b'd' => Some(ServerMessage::Answering(Answer::CopyData)),
            b'c' => Some(ServerMessage::Answering(Answer::CopyDone)),
            b'V' => Some(ServerMessage::Answering(Answer::FunctionResult)),
            b'E' => Some(ServerMessage::Answering(Answer::Failure)),
            b'Z' => {
                let status = TransactionStatus::of(first)?;
                Some(ServerMessage::Readiness(status))
            }
            b'N' | b'A' | b'S' => Some(ServerMessage::Aside),
            _ => None,
        }
    }
}
