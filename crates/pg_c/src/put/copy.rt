//! The data of a COPY, of either side.

ghost use Rattle.std.specs.Prelude.{◌≡◌, ◌≢◌, ◌+◌, ◌<◌, ◌≤◌, ◌≤ℤ◌, pos};
ghost use Rattle.pg_base.specs.Cutting.{max_length};
ghost use Rattle.pg_send.specs.Message as message;
ghost use Rattle.pg_c.specs.Put.{IsRefusedBy, PutsMessage};
ghost use Rattle.pg_c.specs.Put.Copy.{IsCopyHead};
ghost use Rattle.pg_c.specs.Refusal.{too_long_number};

use crate::put::put;
use crate::refusal::MESSAGE_TOO_LONG;
use pg_base::io::MAX_BODY;
use pg_send::message::CopyData;

/// A CopyData: a part of the data of a COPY, from a client or a server.
#[unsafe(no_mangle)]
pub extern "C" fn pgmsg_put_copy_data(data: &[u8], out: &mut [u8]) -> isize
    ensures { PutsMessage (message.CopyData «data».now) out.old out.new result }
{
    put(&CopyData(data), out)
}

/// The five bytes before `len` bytes of the data of a COPY, which the caller sends after them. 0, or
/// why there are none.
#[unsafe(no_mangle)]
pub extern "C" fn pgmsg_put_copy_head(len: usize, head: &mut [u8; 5]) -> i32
    ensures result { result ≤ℤ pos 0 }
    ensures head { result ≡ pos 0 → IsCopyHead len head.new }
    ensures within { result ≡ pos 0 → len + 4 ≤ max_length }
    ensures too_long { result ≢ pos 0 → max_length < len + 4 }
    ensures refused { result ≢ pos 0 → IsRefusedBy too_long_number head.old head.new result }
{
    if len > MAX_BODY {
        return MESSAGE_TOO_LONG;
    }
    let [a, b, c, d] = (len as u32 + 4).to_be_bytes();
    *head = [b'd', a, b, c, d];
    0
}
