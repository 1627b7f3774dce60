//! Messages without a body, of either side.

ghost use Rattle.std.specs.Prelude.{◌≡◌, []};
ghost use Rattle.pg_base.specs.Cutting.{frame};
ghost use Rattle.pg_c.specs.Put.{PutsText};
ghost use Rattle.pg_c.specs.Put.NoBody.{has_no_body, unknown_unless_empty};

use crate::put::{HEADER, put_text};
use crate::refusal::UNKNOWN_MESSAGE_TYPE;
use pg_base::io::{Encodable, Sink};

// The tag of a message that has nothing else.
#[derive(Clone, Copy)]
struct NoBody {
    tag: u8,
}

impl Encodable for NoBody {
    ghost text = { λ message. frame message.tag [] };

    ghost can = { λ _. Unit };

    ghost IsInRange = { λ _. Unit {0} };

    #[inline(always)]
    fn put<S: Sink>(&self, sink: &mut S) {
        sink.put_head(self.tag, 0);
    }
}

/// A message without a body, by its tag. Of a client `H` is Flush, `S` Sync and `X` Terminate; of a server
/// `1` is ParseComplete, `2` BindComplete, `3` CloseComplete, `I` EmptyQueryResponse, `n` NoData and `s`
/// PortalSuspended; of both `c` is CopyDone. Of other tags it is refused with PGMSG_UNKNOWN_MESSAGE_TYPE.
#[unsafe(no_mangle)]
pub extern "C" fn pgmsg_put_no_body(tag: u8, out: &mut [u8]) -> isize
    ensures { PutsText (frame tag []) (unknown_unless_empty tag) out.old out.new result }
{
    if !has_no_body(tag) {
        return UNKNOWN_MESSAGE_TYPE as isize;
    }
    put_text(&NoBody { tag }, HEADER, out)
}

fn has_no_body(tag: u8) -> bool
    ensures { result ≡ has_no_body tag }
{
    match tag {
        b'1' | b'2' | b'3' | b'H' | b'I' | b'S' | b'X' | b'c' | b'n' | b's' => true,
        _ => false,
    }
}
