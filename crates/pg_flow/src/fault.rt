//! Why a message can't be said, or can't come, now.

ghost use Rattle.std.specs.Prelude.{Some};
ghost use Rattle.pg_flow.specs.Fault.{fault_words};

use std::fmt;

/// Why a message can't be said, or can't come, now.
#[derive(Clone, Copy, Debug, PartialEq, Eq)]
pub enum Fault {
    /// No message of that side begins so.
    Unknown,
    /// The login isn't over, and doesn't wait for this message.
    NotReady,
    /// The client has said that it ends the session, or the server has.
    AfterEnd,
    /// The data of a COPY are to be given or refused first.
    InCopy,
    /// No COPY takes data.
    NotInCopy,
    /// Data of a COPY go both ways: the client's are ended by CopyDone, and can't be refused.
    NotRefusable,
    /// No request waits for an answer.
    Unasked,
    /// A server is done with no request before this one.
    Busy,
    /// The message doesn't answer the request that waits.
    NotAnAnswer,
    /// A COPY asks for data, and other requests were said behind it.
    BehindCopy,
    /// It can't be known whether the server passes over the request: a Sync is to be said first.
    SyncFirst,
    /// There is no memory for one more request that waits, or no number for it.
    Full,
}

impl fmt::Display for Fault {
    ghost output = { λ fault. Some (fault_words fault) };

    fn fmt<W: fmt::Write>(&self, f: &mut fmt::Formatter<W>) -> fmt::Result {
        match *self {
            Fault::Unknown => write!(f, "no message of that side begins so"),
            Fault::NotReady => write!(f, "the login isn't over, and doesn't wait for this message"),
            Fault::AfterEnd => write!(f, "the session is over"),
            Fault::InCopy => write!(f, "the data of a COPY are to be given or refused first"),
            Fault::NotInCopy => write!(f, "no COPY takes data"),
            Fault::NotRefusable => {
                write!(
                    f,
                    "the data of this COPY go both ways, and can't be refused"
                )
            }
            Fault::Unasked => write!(f, "no request waits for an answer"),
            Fault::Busy => write!(f, "the server is answering another request"),
            Fault::NotAnAnswer => write!(f, "the message doesn't answer the request that waits"),
            Fault::BehindCopy => write!(
                f,
                "a COPY asks for data, and other requests were said behind it"
            ),
            Fault::SyncFirst => write!(f, "a Sync is to be said first"),
            Fault::Full => write!(f, "there is no room for one more request"),
        }
    }
}

impl std::error::Error for Fault {}
