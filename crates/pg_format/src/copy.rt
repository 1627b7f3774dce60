//! The data of a COPY and its end, as a server sends them.

ghost use Rattle.pg_base.specs.declared.format.BackendMessageFormat.TheVariants as formats;

use crate::received::BackendMessage;
use bytes::Bytes;
use pg_base::io::{CopyData, CopyDone};
use pg_base::{BackendMessageFormat, Error};
use std::alloc::Global;

impl BackendMessage for CopyData<Bytes> {
    ghost use Rattle.std.specs.Prelude.{ℕ, List};
    ghost use Rattle.pg_format.specs.Messages.{copy_data};
    ghost use Rattle.pg_format.specs.Lawful.{lawful_remaining};

    const FORMAT: BackendMessageFormat = BackendMessageFormat::CopyData;

    ghost FORMAT = { formats.CopyData };

    ghost Shown = { List ℕ };

    ghost shown = { λ part. part.0 };

    ghost format = { copy_data };

    ghost NeedsNoMemory = { λ _. Unit {0} };

    fn decode_body(_alloc: Global, buf: Bytes) -> Result<Self, Error> {
        Ok(CopyData(buf))
    }

    ghost lawful = { lawful_remaining };
}

impl BackendMessage for CopyDone {
    ghost use Rattle.pg_format.specs.Messages.{no_body};
    ghost use Rattle.pg_format.specs.Lawful.{lawful_no_body};

    const FORMAT: BackendMessageFormat = BackendMessageFormat::CopyDone;

    ghost FORMAT = { formats.CopyDone };

    ghost Shown = { Unit {0} };

    ghost shown = { λ _. tt };

    ghost format = { no_body };

    ghost NeedsNoMemory = { λ _. Unit {0} };

    fn decode_body(_alloc: Global, _buf: Bytes) -> Result<Self, Error> {
        Ok(CopyDone)
    }

    ghost lawful = { lawful_no_body };
}
