//! Which message comes next, as C has it.

ghost use Rattle.std.specs.Prelude.{◌≡◌};
ghost use Rattle.pg_c.specs.Relay.{expected};

use pg_frames::frontend::Expects;

/// What comes next where it is a first message or not.
pub(crate) fn expects_of(is_first: bool) -> Expects
    ensures { result ≡ expected is_first }
{
    if is_first {
        Expects::First
    } else {
        Expects::Tagged
    }
}

/// Whether it is a first message.
pub(crate) fn is_of_first(expects: Expects) -> bool
    ensures { expected result ≡ expects }
{
    expects == Expects::First
}
