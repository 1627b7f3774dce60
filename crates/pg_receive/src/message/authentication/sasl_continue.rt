//! The challenge of a server in a SASL exchange.

ghost use Rattle.std.specs.Prelude.{◌≡◌, Some, OnOk, IfErr};
ghost use Rattle.pg_format.specs.Sasl.{item_fault, salt_key};
ghost use Rattle.pg_receive.specs.Authentication.SaslContinue.{ContinueValue, challenges, lawful_challenges, ChallengeNeedsNoMemory, TakesItem};
ghost use Rattle.pg_format.specs.Format.{Means, IsFaultOf, ReadsAs};
ghost use Rattle.pg_format.proofs.FormatLaws.Whole.{one_meaning, meaning_or_fault};
ghost use Rattle.pg_receive.specs.Authentication.Shown.{continue_shown, continue_borrowed};
ghost use Rattle.pg_format.specs.Received.{DecodesBody};

use crate::message::authentication::base64_bytes::Base64Bytes;
use crate::message::authentication::sasl_items::{SaslItems, split_key};
use crate::message::{leading_u32, utf8_text};
use bytes::Bytes;
use pg_base::io::ProtocolDecode;
use pg_base::{Error, ProtocolFault};
use std::alloc::Global;

const DEFAULT_ITERATIONS: u32 = 4096;

const ITERATIONS: u8 = b'i';

const NONCE: u8 = b'r';

const SALT: u8 = b's';

/// The challenge of the server in a SASL exchange: items between commas, each a letter, a byte that
/// isn't looked at, for `=`, and a value, of which the last of a letter counts. Documentation:
/// "Message Formats", AuthenticationSASLContinue (B), and "SCRAM-SHA-256 Authentication".
#[derive(Drop)]
pub struct AuthenticationSaslContinue {
    /// Empty where none is given.
    pub salt: Vec<u8>,
    /// 4096 where no number is given, or one that is below 0 or above 4294967295.
    pub iterations: u32,
    /// Empty where none is given.
    pub nonce: String,
    /// The challenge as a whole.
    pub message: String,
}

impl ProtocolDecode for AuthenticationSaslContinue {
    ghost Shown = { ContinueValue };

    ghost shown = { continue_shown };

    ghost Means = { Means challenges };

    ghost IsFault = { IsFaultOf challenges };

    ghost NeedsNoMemory = { ChallengeNeedsNoMemory };

    fn decode(alloc: Global, buf: Bytes) -> Result<Self, Error> {
        decode_challenge(alloc, buf.as_slice())
    }

    ghost one_value = { one_meaning lawful_challenges };

    ghost never_both = { meaning_or_fault lawful_challenges };
}

/// The challenge that SASL data is.
#[tactic(auto, using(std::proofs::lemmas::Result::err_from_is_err_and, crate::proofs::AuthenticationLemmas::challenge_copied))]
pub(crate) fn decode_challenge(
    alloc: Global,
    body: &[u8],
) -> Result<AuthenticationSaslContinue, Error>
    ensures { DecodesBody challenges ChallengeNeedsNoMemory continue_shown body.now result }
{
    match AuthenticationSaslContinueRef::read(body) {
        Ok(challenge) => Ok(AuthenticationSaslContinue {
            salt: challenge.salt.to_vec(alloc)?,
            iterations: challenge.iterations,
            nonce: String::from_str(alloc, challenge.nonce)?,
            message: String::from_str(alloc, challenge.message)?,
        }),
        Err(fault) => Err(fault.into()),
    }
}

/// An [`AuthenticationSaslContinue`] that is borrowed from the data of its message.
#[derive(Drop)]
pub struct AuthenticationSaslContinueRef<'a> {
    /// Empty where none is given.
    pub salt: Base64Bytes<'a>,
    /// 4096 where no number is given, or one that is below 0 or above 4294967295.
    pub iterations: u32,
    /// Empty where none is given.
    pub nonce: &'a str,
    /// The challenge as a whole.
    pub message: &'a str,
}

impl<'a> AuthenticationSaslContinueRef<'a> {
    /// Reads SASL data, which follows the number of the method. Its value and its faults are those of
    /// [`AuthenticationSaslContinue`].
    pub fn read(data: &'a [u8]) -> Result<AuthenticationSaslContinueRef<'a>, ProtocolFault>
        ensures { ReadsAs challenges continue_borrowed «data».now result }
    {
        let mut challenge = Challenge {
            salt: Base64Bytes::empty(),
            iterations: DEFAULT_ITERATIONS,
            nonce: &[],
        };
        for item in SaslItems::new(data) {
            challenge.take(item)?;
        }
        let nonce = utf8_text(challenge.nonce).ok_or(ProtocolFault::NotUtf8)?;
        let message = utf8_text(data).ok_or(ProtocolFault::NotUtf8)?;
        Ok(AuthenticationSaslContinueRef {
            salt: challenge.salt,
            iterations: challenge.iterations,
            nonce,
            message,
        })
    }
}

// What the items of a challenge say.
#[derive(Drop)]
struct Challenge<'a> {
    salt: Base64Bytes<'a>,
    iterations: u32,
    nonce: &'a [u8],
}

impl<'a> Challenge<'a> {
    fn take(&mut self, item: &'a [u8]) -> Result<(), ProtocolFault>
        ensures takes { OnOk result (TakesItem item.now self.old self.new) }
        ensures fault { IfErr result (λ fault. item_fault salt_key item.now ≡ Some fault) }
    {
        let (key, value) = split_key(item)?;
        match key {
            SALT => self.salt = Base64Bytes::read(value)?,
            ITERATIONS => {
                self.iterations = leading_u32(value).unwrap_or(DEFAULT_ITERATIONS);
            }
            NONCE => self.nonce = value,
            _ => {}
        }
        Ok(())
    }
}
