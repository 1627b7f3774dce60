//! What follows of streams from what a stream is, for whoever proves more: the contract of each
//! function is a law. Those of clones call the clone; the others do nothing.

pub mod protocol;
pub mod raw;

ghost use Rattle.std.specs.Prelude.{◌≡◌, ◌++◌, Ok};
ghost use Rattle.pg_frames.specs.Laws.{IsReadOneWay, ReadsAll, StreamsCompose, NeverBoth, FaultIsNeither, HasOneFault, FaultStays, ReadingsAgree};
ghost use Rattle.pg_frames.specs.Pieces.{IsRead};
ghost use Rattle.pg_frames.specs.Values.{HaveValues, HaveAnswers, EachAgree};
ghost use Rattle.pg_frames.specs.Stream.{Stream, Whole, WantsMore, IsStreamFault};
ghost use Rattle.pg_base.specs.Derived.{IsEqualByValue};

use crate::frame::Frame;
use crate::pieces::StreamEnd;
use pg_format::BackendMessage;
use std::alloc::AllocError;

/// A stream is one list of messages and one rest that isn't whole. So it is read into one list with
/// one end, however it was cut.
pub fn a_stream_is_read_one_way()
    ensures stream { IsReadOneWay (ReadsAll Stream Whole) }
    ensures read { IsReadOneWay IsRead }
{}

/// What was left of a stream, with the bytes that come next, goes on with the stream.
#[tactic(auto, using(crate::proofs::PiecesLemmas::stream_append))]
pub fn streams_compose()
    ensures { StreamsCompose Stream (λ bytes more. bytes ++ more) }
{}

/// Bytes begin with a whole message, or want more, or have one fault, and never two of these.
pub fn one_answer_is_due()
    ensures whole { NeverBoth Whole WantsMore }
    ensures fault { FaultIsNeither IsStreamFault Whole WantsMore }
    ensures one { HasOneFault IsStreamFault }
{}

/// A fault stays, whatever comes next.
#[tactic(auto, using(crate::proofs::FramingLemmas::fault_stays))]
pub fn a_fault_stays()
    ensures { FaultStays IsStreamFault (λ bytes more. bytes ++ more) }
{}

/// However a stream was cut, its messages of one kind mean the same values, in order; and what
/// [`ReceivedMessage::decode`](pg_format::ReceivedMessage::decode) answers for them agrees
/// place by place, memory aside.
pub fn values_are_those_of_the_stream<T: BackendMessage>()
    ensures values { ReadingsAgree (HaveValues T.BackendMessage) (λ vs ws. vs ≡ ws) }
    ensures answers { ReadingsAgree (HaveAnswers T.BackendMessage) (EachAgree T.shown) }
{}

/// Ends are equal where they are the same.
pub fn ends_are_equal_by_value()
    ensures { IsEqualByValue ⟦<StreamEnd as PartialEq>⟧.eq }
{}

/// A clone of an end is that end.
pub fn clone_of_end(end: &StreamEnd) -> Result<StreamEnd, AllocError>
    ensures { result ≡ Ok end.now }
{
    end.clone()
}

/// A clone of a frame is that frame.
pub fn clone_of_frame<'a>(frame: &Frame<'a>) -> Result<Frame<'a>, AllocError>
    ensures { result ≡ Ok frame.now }
{
    frame.clone()
}
