//! What follows of streams of messages of any tag. Each contract is a law; the functions do nothing.

ghost use Rattle.std.specs.Prelude.{ℕ, List, ◌++◌};
ghost use Rattle.pg_frames.specs.Laws.{NeverBoth, FaultIsNeither, HasOneFault, FaultStays};
ghost use Rattle.pg_frames.specs.ProtocolFrame as known;
ghost use Rattle.pg_frames.specs.Stream.Raw.{Whole, WantsMore, HasBadLength};

/// Bytes begin with a whole message of any tag, or want more, or have one fault, and never two of these.
pub fn one_answer_is_due()
    ensures whole { NeverBoth Whole WantsMore }
    ensures fault { FaultIsNeither HasBadLength Whole WantsMore }
    ensures one { HasOneFault HasBadLength }
{}

/// A fault stays, whatever comes next.
#[tactic(auto, using(crate::proofs::FramingLemmas::low_stays))]
pub fn a_fault_stays()
    ensures { FaultStays HasBadLength (λ bytes more. bytes ++ more) }
{}

/// A whole message of the 24 kinds is one of any tag, and one of which more is wanted is too.
#[tactic(auto, using(crate::proofs::ProtocolFrameLemmas::any_whole, crate::proofs::ProtocolFrameLemmas::any_wants))]
pub fn the_24_kinds_are_among_them()
    ensures whole { (bytes : List ℕ) → known.Whole bytes → Whole bytes }
    ensures part { (bytes : List ℕ) → known.WantsMore bytes → WantsMore bytes }
{}
