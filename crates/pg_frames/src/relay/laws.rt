//! What follows of what a relay passes on: the contract of each function is a law. Those of clones call the
//! clone; the others do nothing.

ghost use Rattle.std.specs.Prelude.{◌≡◌, Ok};
ghost use Rattle.pg_frames.specs.declared.frontend.frame.Expects.{Expects};
ghost use Rattle.pg_frames.specs.declared.frontend.frame.Expects.TheVariants.{Tagged};
ghost use Rattle.pg_frames.specs.Relay.Answer.{AreMessages, Frames, Lead};
ghost use Rattle.pg_frames.specs.Relay.Laws.{ComesOneWay, EndsAtLowLength, KeepsEach, PassesAsItCame, PassesFrames, PassesNothingAtFirst};
ghost use Rattle.pg_base.specs.Derived.{IsEqualByValue};

use crate::relay::answer::Answer;
use crate::relay::error::RelayError;
use crate::relay::pass::Answers;
use std::alloc::AllocError;

/// A relay that has taken nothing has passed nothing on.
pub fn at_first_nothing_is_passed<U: Answers>()
    ensures { PassesNothingAtFirst U.wanted U.answers }
{}

/// Where each frame is kept, what went out and what the relay holds are the bytes that came, however they were
/// cut into pieces.
pub fn what_is_kept_goes_out_as_it_came<U: Answers>()
    ensures { KeepsEach U.answers → PassesAsItCame U.wanted U.answers }
{}

/// The frames that came and those that went out follow one another as they are expected, and after both the same
/// is expected.
#[tactic(auto, using(crate::proofs::RelayMessagesLemmas::relayed_lead))]
pub fn what_goes_out_is_whole_frames<U: Answers>()
    ensures { PassesFrames U.wanted U.answers }
{}

/// However the bytes were cut into pieces, the same frames came, and as many bytes follow them, given in parts or
/// held. What a relay holds is no whole frame, as [`Relay::held`](crate::relay::Relay::held) and
/// [`Relay::left`](crate::relay::Relay::left) say.
pub fn frames_come_however_they_are_cut<U: Answers>()
    ensures { ComesOneWay U.wanted U.answers }
{}

/// Where a length is too low, what follows it is never passed on, however the bytes are cut and whatever its user
/// answers.
pub fn no_more_passes_after_a_low_length<U: Answers>()
    ensures { EndsAtLowLength U.wanted U.answers }
{}

/// Frames with tags are messages, and their bytes are cut into these and no others.
#[tactic(auto, using(pg_base::proofs::CuttingLemmas::is_cut_into, crate::proofs::RelayMessagesLemmas::frames_cut))]
pub fn frames_are_messages()
    ensures { (frames : Frames) (last : Expects) → Lead Tagged frames last → AreMessages frames }
{}

/// Values are equal where they are the same.
pub fn values_are_equal_where_they_are_the_same()
    ensures answers { IsEqualByValue ⟦<Answer as PartialEq>⟧.eq }
    ensures errors { IsEqualByValue ⟦<RelayError as PartialEq>⟧.eq }
{}

/// A clone is the value that was cloned.
pub fn clone_of_answer(answer: &Answer) -> Result<Answer, AllocError>
    ensures { result ≡ Ok answer.now }
{
    answer.clone()
}

/// A clone is the value that was cloned.
pub fn clone_of_error(error: &RelayError) -> Result<RelayError, AllocError>
    ensures { result ≡ Ok error.now }
{
    error.clone()
}
