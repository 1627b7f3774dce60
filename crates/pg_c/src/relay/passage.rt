//! What is at the front of a stream that is passed on.

ghost use Rattle.std.specs.Prelude.{◌≡◌, ◌<◌, ◌<ℤ◌, ◌≤ℤ◌, pos};
ghost use Rattle.pg_c.specs.Read.{LeavesEither};
ghost use Rattle.pg_c.specs.Relay.Passage.{is_asked, GoesAll, GoesPart, NeedsBytes, RefusesPassage};

use crate::refusal::PgmsgFault;
use crate::relay::refusal::report_relay;
use crate::relay::state::{expects_of, is_of_first};
use pg_frames::relay::{Passage, Wants, next_passage};
use std::alloc::Global;

/// One direction of a connection that is passed on. Set `limit` to the most bytes of a message that is taken
/// whole, `left` to 0, and `is_first` where a client's first message comes next; `pgmsg_relay_next` moves the
/// last two on, and leaves `limit` as it is.
#[repr(C)]
#[derive(Clone, Copy)]
pub struct PgmsgRelay {
    pub limit: usize,
    pub left: usize,
    pub is_first: bool,
}

/// What is at the front of a stream. `length` bytes of it go out together; where more bytes are needed, it is how
/// many at least. `tag` is 0 for a first message.
#[repr(C)]
#[derive(Clone, Copy)]
pub struct PgmsgPassage {
    pub tag: u8,
    pub length: usize,
}

// The tags of the messages that are wanted whole: those that have no 0.
#[derive(Drop)]
struct Wanted<'a> {
    flags: &'a [u8; 256],
}

impl Wants for Wanted<'_> {
    ghost wanted = { λ wanted. is_asked wanted.flags.now };

    fn wants(&self, tag: u8, _length: usize) -> bool {
        self.flags[tag as usize] != 0
    }
}

/// What is at the front of a stream that is passed on: 1 for a whole message that is wanted whole, or a first one; 2
/// for the next bytes of one that isn't; 0 where more bytes are needed. Messages with a tag are wanted whole where
/// `wanted` has no 0 at the tag; a first message always is. While a message goes on in parts, `tag` stays as it is. The
/// call refuses a length below 4, or below 8 for a first message, and a message that is wanted whole and is longer than
/// `limit`.
#[unsafe(no_mangle)]
pub extern "C" fn pgmsg_relay_next(
    alloc: Global,
    relay: &mut PgmsgRelay,
    wanted: &[u8; 256],
    stream: &[u8],
    passage: &mut PgmsgPassage,
    fault: &mut PgmsgFault,
) -> i32
    ensures result { result ≤ℤ pos 2 }
    ensures whole { result ≡ pos 1 → GoesAll wanted.now relay.old stream.now passage.new relay.new }
    ensures part { result ≡ pos 2 → GoesPart wanted.now relay.old stream.now passage.new relay.new }
    ensures part_tag { result ≡ pos 2 → 0 < relay.old.left → passage.new.tag ≡ passage.old.tag }
    ensures needs { result ≡ pos 0 → NeedsBytes wanted.now relay.old stream.now passage.new.length }
    ensures needs_tag { result ≡ pos 0 → passage.new.tag ≡ passage.old.tag }
    ensures needs_alone { result ≡ pos 0 → relay.new ≡ relay.old }
    ensures fault { RefusesPassage wanted.now relay.old stream.now fault.old fault.new result }
    ensures between { result <ℤ pos 0 → relay.old.left ≡ 0 }
    ensures left { LeavesEither fault.old fault.new passage.old passage.new result }
    ensures relay { result <ℤ pos 0 → relay.new ≡ relay.old }
{
    let expects = expects_of(relay.is_first);
    let wanted = Wanted { flags: wanted };
    match next_passage(&wanted, relay.limit, expects, relay.left, stream) {
        Ok(Passage::Whole { tag, length, next }) => {
            relay.is_first = is_of_first(next);
            passage.tag = tag.unwrap_or(0);
            passage.length = length;
            1
        }
        Ok(Passage::Part { length, left }) => {
            if relay.left == 0 {
                passage.tag = stream[0];
            }
            passage.length = length;
            relay.left = left;
            2
        }
        Ok(Passage::Needs(length)) => {
            passage.length = length;
            0
        }
        Err(why) => report_relay(alloc, why, fault),
    }
}
