//! Messages to the server, written at the front of the caller's bytes.
//!
//! Each call gives the length of the message in bytes, and has written it where `out` is that long;
//! else `out` is as it was. It refuses by a number below 0, and `out` is as it was: a message that
//! breaks a limit, or one that a reader wouldn't get back from its bytes. Texts are any bytes. What is
//! to be sent is read where the caller has it, and no memory is asked for.

pub mod copy;
pub mod names;
pub mod no_body;
pub mod prepared;
pub mod session;
pub mod startup;
pub mod text;

ghost use Rattle.std.specs.Prelude.{◌≡◌, ◌+◌, ◌<◌, ◌≤◌, length, pos, IfOk, IfErr};
ghost use Rattle.pg_base.specs.Cutting.{max_length};
ghost use Rattle.pg_base.specs.Sink.{IsGiven};
ghost use Rattle.pg_send.specs.FrontendMessage.{IsMeasured};
ghost use Rattle.pg_c.specs.Put.{IsSound, IsDue, IsWritten, PutsLaw};

use crate::refusal::number_of;
use pg_base::Error;
use pg_base::io::{Encodable, write_text};
use pg_send::message::{FrontendMessage, write_frame};

/// The bytes before a body: the tag and the length.
pub(crate) const HEADER: usize = 5;

/// Writes a message.
#[inline]
pub(crate) fn put<F: FrontendMessage>(message: &F, out: &mut [u8]) -> isize
    ensures { PutsLaw (F.law message.now) out.old out.new result }
{
    match write(message, out) {
        Ok(len) => len as isize,
        Err(error) => number_of(error) as isize,
    }
}

fn write<F: FrontendMessage>(message: &F, out: &mut [u8]) -> Result<usize, Error>
    ensures written { IsWritten (F.law message.now) result out.old out.new }
    ensures small { IfOk result (λ len. len < 4294967296) }
{
    let len = sound_len(message)?;
    write_frame(message, len, out);
    Ok(len + HEADER)
}

// The length of the body, or why the message is refused: for a limit, then for the round trip.
fn sound_len<F: FrontendMessage>(message: &F) -> Result<usize, Error>
    ensures sound { IfOk result (λ _. IsSound (F.law message.now)) }
    ensures measured { IfOk result (IsMeasured (F.law message.now)) }
    ensures short { IfOk result (λ len. len + 4 ≤ max_length) }
    ensures due { IfErr result (IsDue (F.law message.now)) }
{
    // The texts are searched before the length is known, although a limit is refused first: the machine code then keeps the
    // message over fewer calls.
    let sound = message.check_round_trip();
    let len = message.checked_body_len()?;
    sound?;
    Ok(len)
}

/// Writes a text of `len` bytes, and gives its length.
#[inline]
pub(crate) fn put_text<T: Encodable>(text: &T, len: usize, out: &mut [u8]) -> isize
    requires can { T.can text.now }
    requires len { len ≡ length (T.text text.now) }
    requires small { len < 9223372036854775808 }
    ensures length { result ≡ pos (length (T.text text.now)) }
    ensures given { IsGiven (T.text text.now) out.old out.new }
{
    write_text(text, len, out);
    len as isize
}
