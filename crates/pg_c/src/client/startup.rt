//! The settings of a Startup.

ghost use Rattle.std.specs.Prelude.{◌≡◌, [], length, IfSome, IfNone};
ghost use Rattle.pg_server.specs.Frontend.Lists.{settings_in};
ghost use Rattle.pg_c.specs.Client.Startup.{setting_in, asked_for, SplitsSetting};
ghost use Rattle.pg_c.specs.Read.{AreGiven};

use crate::place::PgmsgSpan;
use crate::read::status::PgmsgParameterStatus;
use pg_receive::message::split_text;

// The bytes of the code at the front.
const CODE_LENGTH: usize = 4;

/// The settings that open a session, by the body of a Startup, in the client's encoding: how many there
/// are. As many as there is room for are written.
#[unsafe(no_mangle)]
pub extern "C" fn pgmsg_read_settings(body: &[u8], settings: &mut [PgmsgParameterStatus]) -> usize
    ensures count { result ≡ length (asked_for body.now) }
    ensures given { AreGiven (setting_in body.now) (asked_for body.now) settings.old settings.new }
{
    if body.len() < CODE_LENGTH {
        return 0;
    }
    let mut rest = &body[CODE_LENGTH..];
    let mut at = CODE_LENGTH;
    let mut count: usize = 0;
    while let Some((name, value, after)) = split_setting(rest) {
        if count < settings.len() {
            settings[count] = PgmsgParameterStatus {
                name: PgmsgSpan {
                    at,
                    len: name.len(),
                },
                value: PgmsgSpan {
                    at: at + name.len() + 1,
                    len: value.len(),
                },
            };
        }
        at += name.len() + value.len() + 2;
        count += 1;
        rest = after;
    }
    count
}

// The setting at the front of some bytes, its name and its value, and what follows. Nothing where the
// name is empty, or where a NUL is missing.
fn split_setting(bytes: &[u8]) -> Option<(&[u8], &[u8], &[u8])>
    ensures found { IfSome result (SplitsSetting bytes.now) }
    ensures none { IfNone result (settings_in bytes.now ≡ []) }
{
    let (name, after) = split_text(bytes)?;
    if name.is_empty() {
        return None;
    }
    let (value, rest) = split_text(after)?;
    Some((name, value, rest))
}
