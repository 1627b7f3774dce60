//! Which frames a relay's user wants whole.

ghost use Rattle.std.specs.Prelude.{◌≡◌, ℕ, Bool};
ghost use Rattle.pg_frames.specs.Relay.{is_wanted};

/// Says which frames are to come whole, by their tags and lengths. The others are passed on in parts as their
/// bytes come, whatever their length. A client's first messages, which have no tag, always come whole.
pub trait Wants {
    /// Whether a frame with this tag and so many bytes is wanted whole.
    ghost wanted: { Self → ℕ → ℕ → Bool };

    /// Whether a frame with this tag is wanted whole, which has so many bytes with its tag and its length.
    fn wants(&self, tag: u8, length: usize) -> bool
        ensures { result ≡ wanted self.now tag length };
}

/// Whether a frame is wanted whole that has this tag, or none.
#[inline(always)]
pub(crate) fn wants_whole<W: Wants>(wants: &W, tag: Option<u8>, count: usize) -> bool
    ensures { result ≡ is_wanted (W.wanted wants.now) tag count }
{
    match tag {
        None => true,
        Some(tag) => wants.wants(tag, count),
    }
}

/// Wants every frame whole.
#[derive(Clone, Copy)]
pub struct All;

impl Wants for All {
    ghost use Rattle.std.specs.Prelude.{true};

    ghost wanted = { λ _ _ _. true };

    fn wants(&self, _tag: u8, _length: usize) -> bool {
        true
    }
}
