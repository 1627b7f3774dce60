//! The numbered names that sqlx gives, for callers that use them, and which texts are UTF-8.

ghost use Rattle.std.specs.Prelude.{◌≡◌, length};
ghost use Rattle.std.specs.Str.Lossy.{utf8_valid_len};
ghost use Rattle.pg_base.specs.Id.{name, named, portal_prefix, statement_prefix};
ghost use Rattle.pg_base.specs.Naming.{bytes_of};
ghost use Rattle.pg_base.specs.Sink.{IsGiven};
ghost use Rattle.pg_base.specs.Ended.{ended};

use pg_base::io::{Encodable, Name, PortalId, Sink, StatementId, write_text};
use std::str;

// A name and the NUL that ends it.
#[derive(Clone, Copy)]
struct EndedName<N>(N);

impl<N: Name> Encodable for EndedName<N> {
    ghost text = { λ it. ended (bytes_of (N.naming it.0)) };

    ghost can = { λ _. Unit };

    ghost IsInRange = { λ _. Unit {0} };

    #[inline(always)]
    fn put<S: Sink>(&self, sink: &mut S) {
        self.0.put_ended(sink);
    }
}

/// The name of the prepared statement with a number N: `sqlx_s_N`, or no byte for 0. Returns its length without
/// a NUL. Where `out` is longer than the name, the name is written with the NUL that ends it.
#[unsafe(no_mangle)]
pub extern "C" fn pgmsg_put_statement_name(number: u32, out: &mut [u8]) -> usize
    ensures length { result ≡ length (name statement_prefix number) }
    ensures given { IsGiven (named statement_prefix number) out.old out.new }
{
    let id = StatementId::from_number(number);
    let len = id.name_len();
    write_text(&EndedName(id), len, out);
    len - 1
}

/// The name of the portal with a number N: `sqlx_p_N`, or no byte for 0, as `pgmsg_put_statement_name` writes that
/// of a statement.
#[unsafe(no_mangle)]
pub extern "C" fn pgmsg_put_portal_name(number: u32, out: &mut [u8]) -> usize
    ensures length { result ≡ length (name portal_prefix number) }
    ensures given { IsGiven (named portal_prefix number) out.old out.new }
{
    let id = PortalId::from_number(number);
    let len = id.name_len();
    write_text(&EndedName(id), len, out);
    len - 1
}

/// How many bytes at the front of a text are UTF-8: the length of the text where all of it is, else the offset of the
/// first character that isn't.
#[unsafe(no_mangle)]
pub extern "C" fn pgmsg_check_utf8(text: &[u8]) -> usize
    ensures { result ≡ utf8_valid_len text.now }
{
    match str::from_utf8(text) {
        Ok(_) => text.len(),
        Err(why) => why.valid_up_to(),
    }
}
