//! A session, as its client or its server follows it.

ghost use Rattle.std.specs.Prelude.{◌≡◌, ◌≢◌, Some, None, true, false, OnOk, OnErr, IfOk, IfErr};
ghost use Rattle.pg_flow.specs.ClientFlow.View.{client_of};
ghost use Rattle.pg_flow.specs.ServerFlow.View.{server_of};
ghost use Rattle.pg_flow.specs.Faults.{said_fault, heard_fault, answered_fault, side_said_fault, side_heard_fault};
ghost use Rattle.pg_flow.specs.Flow.{OfClient, OfServer, session_said, session_number, session_heard, session_whose, session_mode, answered_by, whose_answered, opened_by, whose_begun, begun_by, begins_or_flushes, status_after, side_said, side_heard, side_whose, side_mode, number_asked, count_of, first_in, waiting_in, is_client, first_session, ready_session, new_client, new_server};

use crate::answer::Answer;
use crate::begin_answer::BeginAnswer;
use crate::begin_request::BeginRequest;
use crate::client_flow::ClientFlow;
use crate::client_message::ClientMessage;
use crate::fault::Fault;
use crate::heard::Heard;
use crate::mode::Mode;
use crate::server_flow::ServerFlow;
use crate::server_message::ServerMessage;
use crate::stage::Stage;
use crate::transaction_status::TransactionStatus;
use std::alloc::Global;

/// A session, as its client or its server follows it: which message may come next, and which request it answers. What the
/// client says is shown to [`Flow::said`], and what it hears to [`Flow::heard`], by a client when it says and hears it, and
/// by a server when it takes and gives it.
#[derive(Drop)]
pub struct Flow {
    pub(crate) stage: Stage,
    /// The client has said that it ends the session.
    pub(crate) left: bool,
    pub(crate) role: Role,
    pub(crate) status: Option<TransactionStatus>,
}

/// Whose side of a session is followed.
#[derive(Drop)]
pub(crate) enum Role {
    Client(ClientFlow),
    Server(ServerFlow),
}

impl Flow {
    ghost use Rattle.pg_flow.specs.Flow.View.{session_of, side_of};

    /// The flow of a client that has said nothing yet.
    pub fn client(alloc: Global) -> Flow
        ensures { session_of result ≡ first_session new_client }
    {
        Flow {
            stage: Stage::Opening(false, false, false),
            left: false,
            role: Role::Client(ClientFlow::new(alloc)),
            status: None,
        }
    }

    /// The flow of a server that has taken nothing yet.
    pub fn server() -> Flow
        ensures { session_of result ≡ first_session new_server }
    {
        Flow {
            stage: Stage::Opening(false, false, false),
            left: false,
            role: Role::Server(ServerFlow::new()),
            status: None,
        }
    }

    /// The flow of a client whose login is over, with no request that waits.
    pub fn ready(alloc: Global) -> Flow
        ensures { session_of result ≡ ready_session new_client }
    {
        Flow {
            stage: Stage::Ready,
            left: false,
            role: Role::Client(ClientFlow::new(alloc)),
            status: None,
        }
    }

    /// The flow of a server whose client is logged in, with no request to answer.
    pub fn ready_server() -> Flow
        ensures { session_of result ≡ ready_session new_server }
    {
        Flow {
            stage: Stage::Ready,
            left: false,
            role: Role::Server(ServerFlow::new()),
            status: None,
        }
    }

    /// Takes a message from the client, by its tag and the first bytes of its body, and returns the number of a request; the
    /// other messages have none. A message without a tag has the tag 0 here, and its body begins with its code. Six bytes
    /// of a body are enough. A fault changes nothing.
    pub fn said(&mut self, tag: u8, first: &[u8]) -> Result<Option<u64>, Fault>
        ensures ok { OnOk result (session_said tag first.now (session_of self.old)
            ≡ Some (session_of self.new)) }
        ensures number { IfOk result (λ number.
            number ≡ session_number tag first.now (session_of self.old)) }
        ensures err { IfErr result (λ fault. fault ≢ Fault.Full
            → session_said tag first.now (session_of self.old) ≡ None) }
        ensures fault { IfErr result (λ fault. fault ≢ Fault.Full
            → fault ≡ said_fault tag first.now (session_of self.old)) }
        ensures same { OnErr result (session_of self.new ≡ session_of self.old) }
    {
        if tag == b'X' {
            if !self.stage.may_leave() {
                return Err(Fault::NotReady);
            }
            self.left = true;
            return Ok(None);
        }
        if self.left {
            return Err(Fault::AfterEnd);
        }
        if self.stage.is_ready() {
            let Some(message) = ClientMessage::of(tag, first) else {
                return Err(Fault::Unknown);
            };
            return self.role.said(message);
        }
        let Some(stage) = begins(self.stage, tag, first) else {
            if self.stage.is_ended() {
                return Err(Fault::AfterEnd);
            }
            return Err(Fault::NotReady);
        };
        self.stage = stage;
        Ok(None)
    }

    /// Takes a message from the server, by its tag and the first bytes of its body, and returns whose it is. The byte that
    /// answers a request for encryption is a tag here, with no body. Four bytes of a body are enough. A fault changes
    /// nothing.
    pub fn heard(&mut self, tag: u8, first: &[u8]) -> Result<Heard, Fault>
        ensures ok { OnOk result (session_heard tag first.now (session_of self.old)
            ≡ Some (session_of self.new)) }
        ensures whose { IfOk result (λ heard.
            heard ≡ session_whose tag first.now (session_of self.old)) }
        ensures err { OnErr result (session_heard tag first.now (session_of self.old) ≡ None) }
        ensures fault { IfErr result (λ fault.
            fault ≡ heard_fault tag first.now (session_of self.old)) }
        ensures same { OnErr result (session_of self.new ≡ session_of self.old) }
    {
        if self.left && !self.role.is_client() {
            return Err(Fault::AfterEnd);
        }
        if self.stage.is_ready() {
            let Some(message) = ServerMessage::of(tag, first) else {
                return Err(Fault::Unknown);
            };
            return self.answered(message);
        }
        if self.stage.is_ended() {
            if tag == b'E' || tag == b'N' {
                return Ok(Heard::End);
            }
            return Err(Fault::AfterEnd);
        }
        let Some(message) = begun(self.stage, tag, first) else {
            return Err(Fault::NotReady);
        };
        self.opened(message)
    }

    // Takes a message from the server before the login is over.
    fn opened(&mut self, message: BeginAnswer) -> Result<Heard, Fault>
        ensures ok { OnOk result (opened_by message (session_of self.old)
            ≡ Some (session_of self.new)) }
        ensures whose { IfOk result (λ heard. heard ≡ whose_begun message) }
        ensures err { OnErr result (opened_by message (session_of self.old) ≡ None) }
        ensures fault { IfErr result (λ fault. fault ≡ Fault.NotReady) }
        ensures same { OnErr result (session_of self.new ≡ session_of self.old) }
    {
        let Some(stage) = self.stage.heard(message) else {
            return Err(Fault::NotReady);
        };
        self.stage = stage;
        self.status = status_after(message, self.status);
        Ok(whose_begun(message))
    }

    // Takes a message from the server once the login is over. An error that answers nothing is its last words.
    fn answered(&mut self, message: ServerMessage) -> Result<Heard, Fault>
        requires open { self.old.stage ≡ Stage.Ready }
        ensures ok { OnOk result (answered_by message (session_of self.old)
            ≡ Some (session_of self.new)) }
        ensures whose { IfOk result (λ heard.
            heard ≡ whose_answered message (session_of self.old)) }
        ensures err { OnErr result (answered_by message (session_of self.old) ≡ None) }
        ensures fault { IfErr result (λ fault.
            fault ≡ answered_fault (Some message) (session_of self.old).side) }
        ensures same { OnErr result (session_of self.new ≡ session_of self.old) }
    {
        match message {
            ServerMessage::Aside => Ok(Heard::ByItself),
            ServerMessage::Answering(Answer::Failure) => match self.role.heard(Answer::Failure) {
                Ok(heard) => Ok(heard),
                Err(_) => {
                    self.stage = Stage::Ended;
                    Ok(Heard::End)
                }
            },
            ServerMessage::Answering(answer) => self.role.heard(answer),
            ServerMessage::Readiness(status) => {
                let heard = self.role.heard(Answer::Ready)?;
                self.status = Some(status);
                Ok(heard)
            }
        }
    }

    /// What the session waits for.
    pub fn mode(&self) -> Mode
        ensures { result ≡ session_mode (session_of self.now) }
    {
        if self.left {
            return Mode::Ended;
        }
        match self.stage {
            Stage::Ready => self.role.mode(),
            Stage::Ended | Stage::Cancelled => Mode::Ended,
            _ => Mode::Login,
        }
    }

    /// The status that the last ReadyForQuery reported.
    pub fn status(&self) -> Option<TransactionStatus>
        ensures { result ≡ (session_of self.now).status }
    {
        self.status
    }

    /// The number of the first request that waits; where none does, of the next one that is said.
    pub fn first(&self) -> u64
        ensures { result ≡ first_in (session_of self.now).side }
    {
        match &self.role {
            Role::Client(client) => client.first(),
            Role::Server(server) => server.first(),
        }
    }

    /// How many requests were said from the first that waits on.
    pub fn waits(&self) -> u64
        ensures { result ≡ waiting_in (session_of self.now).side }
    {
        self.count().saturating_sub(self.first())
    }

    /// How many requests were said.
    pub fn count(&self) -> u64
        ensures { result ≡ count_of (session_of self.now).side }
    {
        match &self.role {
            Role::Client(client) => client.said(),
            Role::Server(server) => server.taken(),
        }
    }
}

// Where a message of the client with this tag, whose body begins with these bytes, leads from where the login has come to.
fn begins(stage: Stage, tag: u8, first: &[u8]) -> Option<Stage>
    ensures { result ≡ begins_or_flushes tag first.now stage }
{
    if tag == b'H' && stage.takes_flush() {
        return Some(stage);
    }
    let message = BeginRequest::of(tag, first)?;
    stage.said(message)
}

fn status_after(
    message: BeginAnswer,
    status: Option<TransactionStatus>,
) -> Option<TransactionStatus>
    ensures { result ≡ status_after message status }
{
    match message {
        BeginAnswer::Ready(status) => Some(status),
        _ => status,
    }
}

fn whose_begun(message: BeginAnswer) -> Heard
    ensures { result ≡ whose_begun message }
{
    match message {
        BeginAnswer::Failure => Heard::End,
        _ => Heard::Login,
    }
}

// The message of a server with this tag, whose body begins with these bytes, where the login has come so far.
fn begun(stage: Stage, tag: u8, first: &[u8]) -> Option<BeginAnswer>
    ensures { result ≡ begun_by tag first.now stage }
{
    match stage {
        Stage::SslRequested(_) => BeginAnswer::of_byte(b'S', tag),
        Stage::GssRequested(_) => BeginAnswer::of_byte(b'G', tag),
        _ => BeginAnswer::of(tag, first),
    }
}

impl Role {
    ghost use Rattle.pg_flow.specs.Flow.View.{side_of};

    fn is_client(&self) -> bool
        ensures { result ≡ is_client (side_of self.now) }
    {
        match self {
            Role::Client(_) => true,
            Role::Server(_) => false,
        }
    }

    fn mode(&self) -> Mode
        ensures { result ≡ side_mode (side_of self.now) }
    {
        match self {
            Role::Client(client) => client.mode(),
            Role::Server(server) => server.mode(),
        }
    }

    fn said(&mut self, message: ClientMessage) -> Result<Option<u64>, Fault>
        ensures ok { OnOk result (side_said message (side_of self.old) ≡ Some (side_of self.new)) }
        ensures number { IfOk result (λ number. number ≡ number_asked message (side_of self.old)) }
        ensures err { IfErr result (λ fault. fault ≢ Fault.Full
            → side_said message (side_of self.old) ≡ None) }
        ensures fault { IfErr result (λ fault. fault ≢ Fault.Full
            → fault ≡ side_said_fault message (side_of self.old)) }
        ensures same { OnErr result (side_of self.new ≡ side_of self.old) }
    {
        match self {
            Role::Client(client) => said_by_client(client, message),
            Role::Server(server) => taken_by_server(server, message),
        }
    }

    fn heard(&mut self, answer: Answer) -> Result<Heard, Fault>
        ensures ok { OnOk result (side_heard answer (side_of self.old) ≡ Some (side_of self.new)) }
        ensures whose { IfOk result (λ heard. heard ≡ side_whose answer (side_of self.old)) }
        ensures err { OnErr result (side_heard answer (side_of self.old) ≡ None) }
        ensures fault { IfErr result (λ fault. fault ≡ side_heard_fault answer (side_of self.old)) }
        ensures same { OnErr result (side_of self.new ≡ side_of self.old) }
    {
        match self {
            Role::Client(client) => client.hear(answer),
            Role::Server(server) => server.tell(answer),
        }
    }
}

fn said_by_client(client: &mut ClientFlow, message: ClientMessage) -> Result<Option<u64>, Fault>
    ensures ok { OnOk result (side_said message (OfClient (client_of client.old) client.old.said)
        ≡ Some (OfClient (client_of client.new) client.new.said)) }
    ensures number { IfOk result (λ number.
        number ≡ number_asked message (OfClient (client_of client.old) client.old.said)) }
    ensures err { IfErr result (λ fault. fault ≢ Fault.Full
        → side_said message (OfClient (client_of client.old) client.old.said) ≡ None) }
    ensures fault { IfErr result (λ fault. fault ≢ Fault.Full
        → fault ≡ side_said_fault message (OfClient (client_of client.old) client.old.said)) }
    ensures same { OnErr result (client_of client.new ≡ client_of client.old) }
    ensures kept { OnErr result (client.new.said ≡ client.old.said) }
{
    match message {
        ClientMessage::Requests(request) => {
            let number = client.say(request)?;
            Ok(Some(number))
        }
        ClientMessage::DataEnd(is_whole) => {
            client.end_data(is_whole)?;
            Ok(None)
        }
        ClientMessage::Data => {
            if client.may_give() {
                Ok(None)
            } else {
                Err(Fault::NotInCopy)
            }
        }
        ClientMessage::Flush => Ok(None),
    }
}

fn taken_by_server(server: &mut ServerFlow, message: ClientMessage) -> Result<Option<u64>, Fault>
    ensures ok { OnOk result (side_said message (OfServer (server_of server.old) server.old.taken)
        ≡ Some (OfServer (server_of server.new) server.new.taken)) }
    ensures number { IfOk result (λ number.
        number ≡ number_asked message (OfServer (server_of server.old) server.old.taken)) }
    ensures err { IfErr result (λ fault. fault ≢ Fault.Full
        → side_said message (OfServer (server_of server.old) server.old.taken) ≡ None) }
    ensures fault { IfErr result (λ fault. fault ≢ Fault.Full
        → fault ≡ side_said_fault message (OfServer (server_of server.old) server.old.taken)) }
    ensures same { OnErr result (server_of server.new ≡ server_of server.old) }
    ensures kept { OnErr result (server.new.taken ≡ server.old.taken) }
{
    match message {
        ClientMessage::Requests(request) => {
            let number = server.take(request)?;
            Ok(Some(number))
        }
        ClientMessage::DataEnd(is_whole) => {
            server.take_end(is_whole)?;
            Ok(None)
        }
        ClientMessage::Data | ClientMessage::Flush => {
            if server.reads() {
                Ok(None)
            } else {
                Err(Fault::Busy)
            }
        }
    }
}
