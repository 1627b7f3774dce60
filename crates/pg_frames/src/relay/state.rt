//! How a relay stands: what it holds, and what comes next.

ghost use Rattle.std.specs.Prelude.{◌≡◌, ◌⊎◌, ◌<◌, [], length};
ghost use Rattle.pg_frames.specs.Relay.{IsUnfinished};

use crate::frontend::Expects;
use crate::relay::Relay;

impl Relay {
    /// The most bytes that a frame may have which is taken whole.
    pub fn limit(&self) -> usize
        ensures { result ≡ self.now.limit }
    {
        self.limit
    }

    /// Which frame comes next, or goes on.
    pub fn expects(&self) -> Expects
        ensures { result ≡ self.now.expects }
    {
        self.expects
    }

    /// What is held: no more than the front of a frame that isn't whole yet and is within the limit, or some bytes of
    /// its tag and length.
    #[tactic(auto, using(crate::proofs::RelayLemmas::unfinished_short))]
    pub fn held(&self) -> &[u8]
        ensures held { result.now ≡ self.now.held }
        ensures unfinished { IsUnfinished self.now.limit self.now.expects result.now }
        ensures short { (length result.now < 5) ⊎ (length result.now < self.now.limit) }
    {
        self.held.as_slice()
    }

    /// How many bytes are still to come of a frame that is passed on in parts.
    pub fn left(&self) -> usize
        ensures left { result ≡ self.now.left }
        ensures parts { 0 < result → self.now.held ≡ [] }
    {
        self.left
    }
}
