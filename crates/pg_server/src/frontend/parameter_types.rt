//! The types of a statement's parameters.

ghost use Rattle.std.specs.Prelude.{◌≡◌, ◌==◌, ◌≤◌, length};
ghost use Rattle.std.specs.Iterator.{YieldsFirstBy, item_count};
ghost use Rattle.pg_format.specs.Format.Lists.{counted_least};
ghost use Rattle.pg_format.specs.Format.Parts.{be_u32};
ghost use Rattle.pg_server.specs.Frontend.Message.{GivesAt};

use crate::frontend::error::FrontendFault;
use crate::frontend::offsets::{bytes_at, u16_at};
use pg_base::io;
use pg_base::io::Oid;
use std::marker::Model;

// The bytes of a type.
const TYPE_LENGTH: usize = 4;

/// The types of parameters in order; 0 leaves a type to the server. There may be fewer than parameters.
///
/// In a contract it is the list of the types that are left, as numbers.
#[derive(Drop)]
pub struct ParameterTypes<'a> {
    bytes: &'a [u8],
}

impl<'a> Model for ParameterTypes<'a> {
    ghost use Rattle.std.specs.Prelude.{ℕ, List};
    ghost use Rattle.pg_server.specs.Frontend.Lists.{types_in};

    ghost Value = { List ℕ };

    ghost view = { λ types. types_in types.bytes.now };
}

impl<'a> ParameterTypes<'a> {
    /// How many types are left.
    #[tactic(auto, using(crate::proofs::FrontendParameterTypesLemmas::length_types_in))]
    pub fn len(&self) -> usize
        ensures { result ≡ length self.now }
    {
        self.bytes.len() / TYPE_LENGTH
    }

    /// Whether no types are left.
    pub fn is_empty(&self) -> bool
        ensures { result ≡ (length self.now == 0) }
    {
        self.len() == 0
    }
}

impl<'a> Iterator for ParameterTypes<'a> {
    type Item = Oid;

    ghost next_gives = { YieldsFirstBy (λ oid. oid.0) (λ types. types) };

    ghost remaining = { item_count (λ types. types) };

    fn next(&mut self) -> Option<Oid> {
        let Ok(number) = io::u32_at(self.bytes, 0) else {
            return None;
        };
        self.bytes = &self.bytes[TYPE_LENGTH..];
        Some(Oid(number))
    }
}

/// The types after their count, which is at an offset within a body.
pub fn types_at(body: &[u8], at: usize) -> Result<(ParameterTypes<'_>, usize), FrontendFault>
    requires { at ≤ length body.now }
    ensures { GivesAt (counted_least 4 be_u32) (λ types. types) body.now at result }
{
    let (count, first) = u16_at(body, at)?;
    let (bytes, end) = bytes_at(body, first, TYPE_LENGTH * usize::from(count))?;
    Ok((ParameterTypes { bytes }, end))
}
