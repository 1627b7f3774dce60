//! How far an answer has come.

ghost use Rattle.std.specs.Prelude.{◌≡◌};
ghost use Rattle.pg_flow.specs.ClientFlow.{is_over};
ghost use Rattle.pg_flow.specs.Plain.{is_open, end_at};

/// How far the answer to a request has come.
#[derive(Clone, Copy, Debug, PartialEq, Eq)]
pub enum Place {
    /// Nothing has come.
    Start,
    /// A statement of a Query is over.
    Over,
    /// Rows come.
    Rows,
    /// Data of a COPY come.
    Out,
    /// All data of a COPY have come.
    OutDone,
    /// The server takes data of a COPY.
    Asked,
    /// All data of a COPY were given.
    Given,
    /// The client has refused to give the data of a COPY, or the rest of them.
    Withheld,
    /// Data of a COPY go both ways.
    Both,
    /// The server has ended its data of such a COPY, and takes those of the client.
    BothIn,
    /// The client has ended its data of such a COPY, and those of the server come.
    BothOut,
    /// Both have ended their data.
    BothDone,
    /// The parameters of a statement have come.
    Parameters,
    /// The result of a function has come.
    Value,
    /// An error has come, and only ReadyForQuery is left.
    Failed,
    /// No request waits, and after an error the server passes over each but a Sync.
    Skipping,
}

/// Whether data of a COPY are to be said there, and no request but a Sync may be.
pub fn is_open(place: Place) -> bool
    ensures { result ≡ is_open place }
{
    match place {
        Place::Asked | Place::Both | Place::BothIn => true,
        _ => false,
    }
}

/// Whether the client has ended the data of a COPY, which is not answered yet.
pub fn has_ended(place: Place) -> bool
    ensures { result ≡ is_over place }
{
    match place {
        Place::Given | Place::Withheld | Place::BothOut | Place::BothDone => true,
        _ => false,
    }
}

/// Where the end of the data of a COPY leads, which are whole or withheld; `None` where it can't be said.
pub fn end_at(is_whole: bool, place: Place) -> Option<Place>
    ensures { result ≡ end_at is_whole place }
{
    match (place, is_whole) {
        (Place::Asked, true) => Some(Place::Given),
        (Place::Asked, false) => Some(Place::Withheld),
        (Place::Both, true) => Some(Place::BothOut),
        (Place::BothIn, true) => Some(Place::BothDone),
        _ => None,
    }
}
