//! The opening of a session, with the settings where the caller has them.

ghost use Rattle.std.specs.Prelude.{◌≤◌, IfOk};
ghost use Rattle.pg_base.specs.Cutting.{max_length};
ghost use Rattle.pg_c.specs.Put.Startup.{name_and_value, IsStartupWritten, PutsStartup};

use crate::refusal::number_of;
use pg_base::Error;
use pg_send::message::RawStartup;
use pg_send::message::settings::AsSetting;

/// The name of a setting and its value.
#[repr(C)]
#[derive(Clone, Copy)]
pub struct PgmsgSetting<'a> {
    pub name: &'a [u8],
    pub value: &'a [u8],
}

impl AsSetting for PgmsgSetting<'_> {
    ghost pair = { name_and_value };

    #[inline(always)]
    fn name(&self) -> &[u8] {
        self.name
    }

    #[inline(always)]
    fn value(&self) -> &[u8] {
        self.value
    }
}

/// A StartupMessage: opens a session by a minor version of the protocol's version 3, 0 or 2, with these
/// settings, of which `user` is required by the server. A name or a value that holds a NUL, or an empty
/// name, is refused as a text that holds a NUL: the server would read other settings.
#[unsafe(no_mangle)]
pub extern "C" fn pgmsg_put_startup(
    minor: u16,
    settings: &[PgmsgSetting<'_>],
    out: &mut [u8],
) -> isize
    ensures { PutsStartup minor settings.now out.old out.new result }
{
    match write_startup(minor, settings, out) {
        Ok(len) => len as isize,
        Err(error) => number_of(error) as isize,
    }
}

// Writes the message at the front of `out` where it is that long, and gives its length. A refusal is for
// the length, then for the round trip.
fn write_startup(minor: u16, settings: &[PgmsgSetting<'_>], out: &mut [u8]) -> Result<usize, Error>
    ensures written { IsStartupWritten minor settings.now result out.old out.new }
    ensures small { IfOk result (λ len. len ≤ max_length) }
{
    let startup = RawStartup { minor, settings };
    startup.checked_len()?;
    startup.check_round_trip()?;
    Ok(startup.write(out)?)
}
