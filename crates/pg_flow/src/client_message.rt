//! What a message of a client is to the flow.

ghost use Rattle.std.specs.Prelude.{◌≡◌};
ghost use Rattle.pg_flow.specs.ClientMessage.{client_message, described};

use crate::request::Request;

/// What a message of a client is to the flow.
#[derive(Clone, Copy, Debug, PartialEq, Eq)]
pub enum ClientMessage {
    /// A request that is answered.
    Requests(Request),
    /// Data of a COPY.
    Data,
    /// The end of the data of a COPY: all were given, or the client has refused to give the rest.
    DataEnd(bool),
    /// A Flush, which asks for what is answered so far.
    Flush,
}

impl ClientMessage {
    /// The message with this tag, whose body begins with these bytes; of a Describe the first byte is looked at. `None` where
    /// no message of the chapter begins so.
    pub fn of(tag: u8, first: &[u8]) -> Option<ClientMessage>
        ensures { result ≡ client_message tag first.now }
    {
        match tag {
            b'Q' => Some(ClientMessage::Requests(Request::Query)),
            b'F' => Some(ClientMessage::Requests(Request::Call)),
            b'P' => Some(ClientMessage::Requests(Request::Parse)),
            b'B' => Some(ClientMessage::Requests(Request::Bind)),
            b'D' => describe(first),
            b'E' => Some(ClientMessage::Requests(Request::Execute)),
            b'C' => Some(ClientMessage::Requests(Request::Close)),
            b'S' => Some(ClientMessage::Requests(Request::Sync)),
            b'd' => Some(ClientMessage::Data),
            b'c' => Some(ClientMessage::DataEnd(true)),
            b'f' => Some(ClientMessage::DataEnd(false)),
            b'H' => Some(ClientMessage::Flush),
            _ => None,
        }
    }
}

fn describe(first: &[u8]) -> Option<ClientMessage>
    ensures { result ≡ described first.now }
{
    match first {
        [b'S', ..] => Some(ClientMessage::Requests(Request::DescribeStatement)),
        [b'P', ..] => Some(ClientMessage::Requests(Request::DescribePortal)),
        _ => None,
    }
}
