//! What may be done now.

ghost use Rattle.std.specs.Prelude.{◌≡◌};
ghost use Rattle.pg_flow.specs.Mode.{mode_in};

use crate::place::Place;

/// What a session waits for.
#[derive(Clone, Copy, Debug, PartialEq, Eq)]
pub enum Mode {
    /// The login isn't over.
    Login,
    /// No request waits, as far as can be known.
    Idle,
    /// A request waits for its answer.
    Busy,
    /// The server takes data of a COPY.
    CopyIn,
    /// The server gives data of a COPY.
    CopyOut,
    /// Data of a COPY go both ways.
    CopyBoth,
    /// No request waits, and after an error the server passes over each but a Sync.
    Skipping,
    /// Nothing may be asked any more.
    Ended,
}

/// The mode while an answer has come so far.
pub fn mode_at(place: Place) -> Mode
    ensures { result ≡ mode_in place }
{
    match place {
        Place::Asked | Place::BothIn => Mode::CopyIn,
        Place::Out | Place::BothOut => Mode::CopyOut,
        Place::Both => Mode::CopyBoth,
        _ => Mode::Busy,
    }
}
