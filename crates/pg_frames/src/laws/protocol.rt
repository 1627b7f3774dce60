//! What follows of streams of the whole protocol. Each contract is a law; the functions do nothing.

ghost use Rattle.std.specs.Prelude.{ℕ, List, ◌++◌};
ghost use Rattle.pg_frames.specs.Laws.{NeverBoth, FaultIsNeither, HasOneFault, FaultStays};
ghost use Rattle.pg_frames.specs.ProtocolFrame.{Whole, WantsMore, IsStreamFault};
ghost use Rattle.pg_frames.specs.Stream as known;

/// Bytes begin with a whole message of the 24 kinds, or want more, or have one fault, and never two of these.
pub fn one_answer_is_due()
    ensures whole { NeverBoth Whole WantsMore }
    ensures fault { FaultIsNeither IsStreamFault Whole WantsMore }
    ensures one { HasOneFault IsStreamFault }
{}

/// A fault stays, whatever comes next.
#[tactic(auto, using(crate::proofs::FramingLemmas::fault_stays))]
pub fn a_fault_stays()
    ensures { FaultStays IsStreamFault (λ bytes more. bytes ++ more) }
{}

/// A whole message of the 21 kinds is one of the 24, and one of which more is wanted is too.
#[tactic(auto, using(crate::proofs::ProtocolFrameLemmas::known_whole, crate::proofs::ProtocolFrameLemmas::known_wants))]
pub fn the_21_kinds_are_among_them()
    ensures whole { (bytes : List ℕ) → known.Whole bytes → Whole bytes }
    ensures part { (bytes : List ℕ) → known.WantsMore bytes → WantsMore bytes }
{}
