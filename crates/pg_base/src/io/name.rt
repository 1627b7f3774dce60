//! Names and texts that a NUL ends.

ghost use Rattle.std.specs.Prelude.{◌≡◌, ◌+◌, ◌≤◌, ◌++◌, length};
ghost use Rattle.pg_base.specs.Naming.{Naming, Numbered, Free, IsNamingInRange, with_nul};
ghost use Rattle.pg_base.specs.Part.{saturated};
ghost use Rattle.pg_base.specs.Sink.{HasRoom};

use crate::error::ProtocolFault;
use crate::io::part::Part;
use crate::io::{PortalId, Sink, StatementId};

/// What stands before a NUL: the name of a statement or a portal by its number, or any bytes.
pub trait Name: Copy {
    ghost naming: { Self → Naming };

    /// The length of the name and a NUL, in bytes; it saturates.
    fn ended_len(&self) -> usize
        ensures { result ≡ saturated (length (with_nul (naming self.now))) };

    /// Adds the name and a NUL, in room that is there.
    fn put_ended<S: Sink>(&self, sink: &mut S)
        requires { HasRoom (S.capacity sink.old) (S.written sink.old) (with_nul (naming self.now)) }
        ensures written { S.written sink.new ≡ S.written sink.old ++ with_nul (naming self.now) }
        ensures capacity { S.capacity sink.old ≤ S.capacity sink.new }
        ensures loan { S.loan sink.new ≡ S.loan sink.old }
        ensures range { IsNamingInRange (naming self.now) };
}

impl Name for StatementId {
    ghost use Rattle.pg_base.specs.Id.{statement_prefix};

    ghost naming = { λ id. Numbered statement_prefix id };

    #[inline(always)]
    fn ended_len(&self) -> usize {
        self.name_len()
    }

    #[inline(always)]
    fn put_ended<S: Sink>(&self, sink: &mut S) {
        self.put_name(sink);
    }
}

impl Name for PortalId {
    ghost use Rattle.pg_base.specs.Id.{portal_prefix};

    ghost naming = { λ id. Numbered portal_prefix id };

    #[inline(always)]
    fn ended_len(&self) -> usize {
        self.name_len()
    }

    #[inline(always)]
    fn put_ended<S: Sink>(&self, sink: &mut S) {
        self.put_name(sink);
    }
}

impl Name for &[u8] {
    ghost naming = { λ name. Free name.now };

    #[inline(always)]
    fn ended_len(&self) -> usize {
        self.len() + 1
    }

    // The empty name needs no copy.
    #[inline(always)]
    fn put_ended<S: Sink>(&self, sink: &mut S) {
        if self.is_empty() {
            sink.put_u8(0);
        } else {
            sink.put_text(self);
        }
    }
}

impl Name for &str {
    ghost naming = { λ text. Free text.now };

    #[inline(always)]
    fn ended_len(&self) -> usize {
        self.as_bytes().ended_len()
    }

    #[inline(always)]
    fn put_ended<S: Sink>(&self, sink: &mut S) {
        sink.put_text(self.as_bytes());
    }
}

/// A name and a NUL, as a part.
#[derive(Clone, Copy)]
pub struct Ended<N>(pub N);

impl<N: Name> Part for Ended<N> {
    ghost use Rattle.pg_base.specs.Part.{name};

    ghost part = { λ it. name (N.naming it.0) };

    #[inline(always)]
    fn len(&self) -> usize {
        self.0.ended_len()
    }

    #[inline(always)]
    fn fault(&self) -> Option<ProtocolFault> {
        None
    }

    #[inline(always)]
    fn put<S: Sink>(&self, sink: &mut S) {
        self.0.put_ended(sink);
    }
}
