//! The settings that open a session, each a name and a value.

ghost use Rattle.std.specs.Prelude.{◌≡◌, ℕ, ◌+◌, ◌≤◌, ◌++◌, List, OnOk, length, map};
ghost use Rattle.std.specs.List.{flat_map, All};
ghost use Rattle.pg_base.specs.declared.error.ProtocolFault.TheVariants.{TextHoldsNul};
ghost use Rattle.pg_base.specs.Cutting.{max_length};
ghost use Rattle.pg_base.specs.Part.{saturated};
ghost use Rattle.pg_send.specs.Startup.{setting, IsReadable};
ghost use Rattle.pg_base.specs.Sink.{HasRoom};
ghost use Rattle.pg_send.specs.FrontendMessage.{RefusesNul};

use crate::message::round_trip::check_ended;
use pg_base::ProtocolFault;
use pg_base::io::part::{Part, Then};
use pg_base::io::{Ended, Sink};

/// What a caller has in the place of a setting.
pub trait AsSetting: Copy {
    /// Its name and its value.
    ghost pair: { Self → List ℕ × List ℕ };

    fn name(&self) -> &[u8]
        ensures { result.now ≡ (pair self.now).0 };

    fn value(&self) -> &[u8]
        ensures { result.now ≡ (pair self.now).1 };
}

impl AsSetting for (&str, &str) {
    ghost use Rattle.pg_send.specs.Startup.{setting_of};

    ghost pair = { setting_of };

    #[inline(always)]
    fn name(&self) -> &[u8] {
        self.0.as_bytes()
    }

    #[inline(always)]
    fn value(&self) -> &[u8] {
        self.1.as_bytes()
    }
}

impl AsSetting for (&[u8], &[u8]) {
    ghost use Rattle.pg_send.specs.Startup.{setting_of};

    ghost pair = { setting_of };

    #[inline(always)]
    fn name(&self) -> &[u8] {
        self.0
    }

    #[inline(always)]
    fn value(&self) -> &[u8] {
        self.1
    }
}

/// Settings, each as its name and its value.
#[derive(Clone, Copy)]
pub struct Settings<'a, T>(pub &'a [T]);

impl<T: AsSetting> Part for Settings<'_, T> {
    ghost use Rattle.pg_base.specs.Part.{bytes};

    ghost part = { λ it. bytes (flat_map setting (map T.pair it.0.now)) };

    #[inline(always)]
    fn len(&self) -> usize {
        settings_len(self.0)
    }

    #[inline(always)]
    fn fault(&self) -> Option<ProtocolFault> {
        None
    }

    #[inline(always)]
    fn put<S: Sink>(&self, sink: &mut S) {
        for setting in self.0 {
            put_setting(setting, sink);
        }
    }
}

fn settings_len<T: AsSetting>(settings: &[T]) -> usize
    ensures { result ≡ saturated (length (flat_map setting (map T.pair settings.now))) }
{
    let mut len: usize = 0;
    for setting in settings {
        len = len.saturating_add(setting_len(setting));
    }
    len
}

fn setting_len<T: AsSetting>(pair: &T) -> usize
    ensures { result ≡ saturated (length (setting (T.pair pair.now))) }
{
    Then(Ended(pair.name()), Ended(pair.value())).len()
}

// Adds a name and its value, each ended by a NUL, in room that is there.
#[inline(always)]
fn put_setting<T: AsSetting, S: Sink>(pair: &T, sink: &mut S)
    requires small { length (setting (T.pair pair.now)) ≤ max_length }
    requires room { HasRoom (S.capacity sink.old) (S.written sink.old) (setting (T.pair pair.now)) }
    ensures written { S.written sink.new ≡ S.written sink.old ++ setting (T.pair pair.now) }
    ensures capacity { S.capacity sink.old ≤ S.capacity sink.new }
    ensures loan { S.loan sink.new ≡ S.loan sink.old }
{
    Then(Ended(pair.name()), Ended(pair.value())).put(sink);
}

/// Whether a server would get the settings back: refused with `TextHoldsNul` where a text holds a NUL,
/// which ends it for the server, or a name is empty, which ends the settings.
pub fn check_settings<T: AsSetting>(settings: &[T]) -> Result<(), ProtocolFault>
    ensures ok { OnOk result (All IsReadable (map T.pair settings.now)) }
    ensures fault { RefusesNul result (All IsReadable (map T.pair settings.now)) }
{
    for setting in settings {
        check_setting(setting)?;
    }
    Ok(())
}

fn check_setting<T: AsSetting>(pair: &T) -> Result<(), ProtocolFault>
    ensures ok { OnOk result (IsReadable (T.pair pair.now)) }
    ensures fault { RefusesNul result (IsReadable (T.pair pair.now)) }
{
    if pair.name().is_empty() {
        return Err(ProtocolFault::TextHoldsNul);
    }
    check_ended(pair.name())?;
    check_ended(pair.value())
}
