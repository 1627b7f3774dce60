//! The format codes of values.

ghost use Rattle.std.specs.Prelude.{◌≡◌, ◌==◌, ◌≤◌, length};
ghost use Rattle.std.specs.Iterator.{YieldsFirstBy, item_count};
ghost use Rattle.pg_format.specs.Messages.{format_codes};
ghost use Rattle.pg_server.specs.Frontend.Message.{GivesAt};

use crate::frontend::error::FrontendFault;
use crate::frontend::offsets::{bytes_at, u16_at};
use pg_base::io;
use std::marker::Model;

// The bytes of a format code.
const CODE_LENGTH: usize = 2;

/// Format codes in order, as they were sent: none where all values are text, one for all of them, or one
/// each. 0 is text and 1 binary; any others are given too.
///
/// In a contract it is the list of the codes that are left.
#[derive(Drop)]
pub struct FormatCodes<'a> {
    bytes: &'a [u8],
}

impl<'a> Model for FormatCodes<'a> {
    ghost use Rattle.std.specs.Prelude.{ℕ, List};
    ghost use Rattle.pg_server.specs.Frontend.Lists.{codes_in};

    ghost Value = { List ℕ };

    ghost view = { λ codes. codes_in codes.bytes.now };
}

impl<'a> FormatCodes<'a> {
    /// How many codes are left.
    #[tactic(auto, using(crate::proofs::FrontendFormatCodesLemmas::length_codes_in))]
    pub fn len(&self) -> usize
        ensures { result ≡ length self.now }
    {
        self.bytes.len() / CODE_LENGTH
    }

    /// Whether no codes are left.
    pub fn is_empty(&self) -> bool
        ensures { result ≡ (length self.now == 0) }
    {
        self.len() == 0
    }
}

impl<'a> Iterator for FormatCodes<'a> {
    type Item = u16;

    ghost next_gives = { YieldsFirstBy (λ code. code) (λ codes. codes) };

    ghost remaining = { item_count (λ codes. codes) };

    fn next(&mut self) -> Option<u16> {
        let Ok(code) = io::u16_at(self.bytes, 0) else {
            return None;
        };
        self.bytes = &self.bytes[CODE_LENGTH..];
        Some(code)
    }
}

/// The codes after their count, which is at an offset within a body.
pub fn codes_at(body: &[u8], at: usize) -> Result<(FormatCodes<'_>, usize), FrontendFault>
    requires { at ≤ length body.now }
    ensures { GivesAt format_codes (λ codes. codes) body.now at result }
{
    let (count, first) = u16_at(body, at)?;
    let (bytes, end) = bytes_at(body, first, CODE_LENGTH * usize::from(count))?;
    Ok((FormatCodes { bytes }, end))
}
