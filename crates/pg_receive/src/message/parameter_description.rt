//! The types of a statement's parameters.

ghost use Rattle.std.specs.Prelude.{◌≤◌, length};
ghost use Rattle.pg_base.specs.declared.format.BackendMessageFormat.TheVariants as formats;
ghost use Rattle.pg_format.specs.Messages.{parameter_description};
ghost use Rattle.pg_receive.specs.ParameterDescription.{types_shown, TypesNeedsNoMemory};
ghost use Rattle.pg_format.specs.Received.{DecodesBody};

use crate::message::BackendMessage;
use bytes::Bytes;
use pg_base::io::{MAX_BODY, Oid, bytes_at, u16_at, u32_at};
use pg_base::{BackendMessageFormat, Error};
use smallvec::SmallVec;
use std::alloc::Global;

// The offset of the first type, after the count.
const FIRST_TYPE: usize = 2;

// The bytes of a type.
const TYPE_LENGTH: usize = 4;

/// The types of the parameters of a prepared statement, in order. Up to six take no memory of their
/// own. Documentation: "Message Formats", ParameterDescription (B).
#[derive(Drop)]
pub struct ParameterDescription {
    /// The types.
    pub types: SmallVec<Oid, 6>,
}

impl BackendMessage for ParameterDescription {
    ghost use Rattle.std.specs.Prelude.{ℕ, List};
    ghost use Rattle.pg_format.specs.Messages.{parameter_description};
    ghost use Rattle.pg_format.proofs.FormatLaws.FromServer.{lawful_parameter_description};
    ghost use Rattle.pg_receive.specs.ParameterDescription.{types_shown, TypesNeedsNoMemory};

    const FORMAT: BackendMessageFormat = BackendMessageFormat::ParameterDescription;

    ghost FORMAT = { formats.ParameterDescription };

    ghost Shown = { List ℕ };

    ghost shown = { λ description. types_shown description.types };

    ghost format = { parameter_description };

    ghost NeedsNoMemory = { TypesNeedsNoMemory };

    fn decode_body(alloc: Global, buf: Bytes) -> Result<Self, Error> {
        let types = types_of(alloc, buf.as_slice())?;
        Ok(ParameterDescription { types })
    }

    ghost lawful = { lawful_parameter_description };
}

fn types_of(alloc: Global, body: &[u8]) -> Result<SmallVec<Oid, 6>, Error>
    requires { length body.now ≤ MAX_BODY }
    ensures { DecodesBody parameter_description TypesNeedsNoMemory types_shown body.now result }
{
    let count = usize::from(u16_at(body, 0)?);
    bytes_at(body, FIRST_TYPE, TYPE_LENGTH * count)?;
    let mut types = SmallVec::new(alloc);
    types.reserve(count)?;
    for index in 0..count {
        types.push_reserved(Oid(u32_at(body, FIRST_TYPE + TYPE_LENGTH * index)?));
    }
    Ok(types)
}
