//! What follows of clients' streams from what a stream is, for whoever proves more: the contract of each
//! function is a law.

ghost use Rattle.std.specs.Prelude.{ℕ};
ghost use Rattle.pg_frames.specs.Frontend.Pieces.{IsRead, TakesMany};
ghost use Rattle.pg_frames.specs.Frontend.Reader.{IsFaultIn, WantsMoreIn, WholeIn, fed};
ghost use Rattle.pg_frames.specs.Laws.{IsReadOneWay, ReadsAll, StreamsCompose, NeverBoth, FaultIsNeither, HasOneFault, FaultStays};
ghost use Rattle.pg_base.specs.Derived.{IsEqualByValue, IsClonedByValue};

use crate::frontend::error::FrontendError;
use crate::frontend::frame::Expects;
use crate::frontend::message::ClientMessageKind;
use crate::frontend::pieces::ClientStreamEnd;

/// A stream is one list of messages and one rest that isn't whole. So it is read into one list with one
/// end, however it was cut.
pub fn a_stream_is_read_one_way()
    ensures stream { IsReadOneWay (ReadsAll TakesMany WholeIn) }
    ensures read { (limit : ℕ) → IsReadOneWay (IsRead limit) }
{}

/// What was left of a stream, with the bytes that come next, goes on with the stream.
#[tactic(auto, using(crate::proofs::FrontendPiecesLemmas::taken_append))]
pub fn streams_compose()
    ensures { StreamsCompose TakesMany fed }
{}

/// Bytes begin with a whole message, or want more, or have one fault, and never two of these.
pub fn one_answer_is_due()
    ensures whole { NeverBoth WholeIn WantsMoreIn }
    ensures fault { FaultIsNeither IsFaultIn WholeIn WantsMoreIn }
    ensures one { HasOneFault IsFaultIn }
{}

/// A fault stays, whatever comes next.
#[tactic(auto, using(crate::proofs::FrontendFrameLemmas::fault_stays))]
pub fn a_fault_stays()
    ensures { FaultStays IsFaultIn fed }
{}

/// Values are equal where they are the same.
pub fn values_are_equal_where_they_are_the_same()
    ensures kinds { IsEqualByValue ⟦<ClientMessageKind as PartialEq>⟧.eq }
    ensures expected { IsEqualByValue ⟦<Expects as PartialEq>⟧.eq }
    ensures errors { IsEqualByValue ⟦<FrontendError as PartialEq>⟧.eq }
    ensures ends { IsEqualByValue ⟦<ClientStreamEnd as PartialEq>⟧.eq }
{}

/// A clone is the value that was cloned.
pub fn clones_are_equal()
    ensures kinds { IsClonedByValue ⟦<ClientMessageKind as Clone>⟧.is_clone }
    ensures expected { IsClonedByValue ⟦<Expects as Clone>⟧.is_clone }
    ensures errors { IsClonedByValue ⟦<FrontendError as Clone>⟧.is_clone }
    ensures ends { IsClonedByValue ⟦<ClientStreamEnd as Clone>⟧.is_clone }
{}
