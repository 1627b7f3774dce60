//! What is at the front of a stream whose bytes its caller keeps.

ghost use Rattle.std.specs.Prelude.{◌≡◌, ◌-◌, min, IfOk, IfErr};
ghost use Rattle.pg_frames.specs.Relay.Passage.{Passes};
ghost use Rattle.pg_frames.specs.Relay.{IsFault};
ghost use Rattle.pg_frames.specs.declared.relay.passage.Passage.TheVariants.{Part};

use crate::frontend::Expects;
use crate::relay::error::RelayError;
use crate::relay::fate::{Fate, fate_of};
use crate::relay::head::{length_of_head, next_after};
use crate::relay::wants::Wants;

/// What is at the front of a stream. Lengths are in bytes.
#[derive(Drop)]
pub enum Passage {
    /// A whole frame that is wanted whole. It goes out as it is, or what its user puts in its place.
    Whole {
        /// The tag, or none where it is a client's first message.
        tag: Option<u8>,
        /// Its length, with the tag and the field for the length.
        length: usize,
        /// What is expected after it.
        next: Expects,
    },
    /// Bytes of a frame that isn't wanted whole. They go out as they are.
    Part {
        /// How many: all that are there, up to the end of the frame.
        length: usize,
        /// How many bytes of the frame are still to come after them.
        left: usize,
    },
    /// Nothing yet: at least so many bytes are needed.
    Needs(usize),
}

/// What is at the front of a stream, for a caller who keeps its bytes until they go out. It is what
/// [`Relay::next`](crate::relay::Relay::next) would hand out, and takes no memory.
///
/// Where `left` is 0, a frame comes as it is expected; else so many bytes are still to come of one that goes out in
/// parts. A length that is too low is `BadLength`, and a frame that is wanted whole is `TooLong` above the limit:
/// both as soon as the frame's length is there.
#[inline(always)]
pub fn next_passage<W: Wants>(
    wants: &W,
    limit: usize,
    expects: Expects,
    left: usize,
    stream: &[u8],
) -> Result<Passage, RelayError>
    ensures passage { IfOk result (Passes (W.wanted wants.now) limit expects left stream.now) }
    ensures between { IfErr result (λ _. left ≡ 0) }
    ensures fault { IfErr result (IsFault (W.wanted wants.now) limit expects stream.now) }
{
    if left > 0 {
        if stream.is_empty() {
            return Ok(Passage::Needs(1));
        }
        return Ok(part_of(left, stream.len()));
    }
    match fate_of(wants, limit, expects, stream)? {
        Fate::Unknown => Ok(Passage::Needs(length_of_head(expects))),
        Fate::Parts(count) => Ok(part_of(count, stream.len())),
        Fate::Whole(tag, count) => {
            if stream.len() < count {
                return Ok(Passage::Needs(count));
            }
            Ok(Passage::Whole {
                tag,
                length: count,
                next: next_after(expects, &stream[..count]),
            })
        }
    }
}

// Of so many bytes that are to come those that are there.
fn part_of(count: usize, there: usize) -> Passage
    ensures { result ≡ Part (min count there) (count - min count there) }
{
    let length = count.min(there);
    Passage::Part {
        length,
        left: count - length,
    }
}
