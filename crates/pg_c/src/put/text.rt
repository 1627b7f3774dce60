//! Messages that are one text: a query, or why a COPY fails.

ghost use Rattle.pg_send.specs.Message as message;
ghost use Rattle.pg_send.specs.Shapes.{copy_fail_or_query_law};
ghost use Rattle.pg_c.specs.Put.{PutsMessage};

use crate::put::put;
use pg_base::io::Ended;
use pg_base::{FrontendMessageFormat, ProtocolFault};
use pg_send::message::composed::Composed;
use pg_send::message::round_trip::check_ended;

// A text of any bytes: of a CopyFail, or of a Query.
#[derive(Drop)]
struct TextOf<'a, const FAILS: bool>(&'a [u8]);

type CopyFail<'a> = TextOf<'a, true>;

type Query<'a> = TextOf<'a, false>;

impl<'a, const FAILS: bool> Composed for TextOf<'a, FAILS> {
    ghost use Rattle.std.specs.Prelude.{refl};

    type Body = Ended<&'a [u8]>;

    const FORMAT: FrontendMessageFormat = if FAILS {
        FrontendMessageFormat::CopyFail
    } else {
        FrontendMessageFormat::Query
    };

    ghost law = { λ it. copy_fail_or_query_law FAILS it.0.now };

    ghost snug = { λ _. refl };

    fn letter(&self) -> u8 {
        if FAILS { b'f' } else { b'Q' }
    }

    #[inline(always)]
    fn check(&self) -> Result<(), ProtocolFault> {
        check_ended(self.0)
    }

    #[inline(always)]
    fn parts(&self) -> Self::Body {
        Ended(self.0)
    }
}

/// A Query: runs the statements of a text. One that holds a NUL is refused.
#[unsafe(no_mangle)]
pub extern "C" fn pgmsg_put_query(query: &[u8], out: &mut [u8]) -> isize
    ensures { PutsMessage (message.Query query.now) out.old out.new result }
{
    let query: Query<'_> = TextOf(query);
    put(&query, out)
}

/// A CopyFail: fails a COPY, and says why. A reason that holds a NUL is refused.
#[unsafe(no_mangle)]
pub extern "C" fn pgmsg_put_copy_fail(reason: &[u8], out: &mut [u8]) -> isize
    ensures { PutsMessage (message.CopyFail reason.now) out.old out.new result }
{
    let fail: CopyFail<'_> = TextOf(reason);
    put(&fail, out)
}
