//! The SASL mechanisms that a server offers.

ghost use Rattle.std.specs.Prelude.{◌≡◌, ℕ, List, [], IfSome, IfNone};
ghost use Rattle.std.specs.Iterator.{YieldsFirstRef, item_count};
ghost use Rattle.pg_receive.specs.Authentication.Mechanisms.{BeginsWithName, mechanisms_in};
ghost use Rattle.pg_receive.specs.Layout.{name};

use crate::message::{split_text, utf8_text};
use std::marker::Model;

/// The names of the mechanisms, in order. Documentation: "Message Formats", AuthenticationSASL (B).
///
/// The list stops at a name that is empty, that isn't UTF-8 or that no NUL ends, or else where the
/// bytes stop. The iterator then stays at its end.
#[derive(Drop)]
pub struct SaslMechanisms<'a> {
    rest: &'a [u8],
}

impl<'a> Model for SaslMechanisms<'a> {
    ghost Value = { List (List ℕ) };

    ghost view = { λ mechanisms. mechanisms_in mechanisms.rest.now };
}

impl<'a> SaslMechanisms<'a> {
    /// The mechanisms that some bytes name.
    pub(crate) fn new(bytes: &'a [u8]) -> SaslMechanisms<'a>
        ensures { result ≡ mechanisms_in bytes.now }
    {
        SaslMechanisms { rest: bytes }
    }
}

impl<'a> Iterator for SaslMechanisms<'a> {
    type Item = &'a str;

    ghost next_gives = { YieldsFirstRef (λ names. names) };

    ghost remaining = { item_count (λ names. names) };

    #[tactic(auto, using(crate::proofs::AuthenticationMechanismsLemmas::mechanisms_at))]
    fn next(&mut self) -> Option<&'a str> {
        let (name, rest) = split_name(self.rest)?;
        self.rest = rest;
        Some(name)
    }
}

/// The name of a mechanism at the front of some bytes, and what follows its NUL. Nothing where the list
/// ends: at an empty name, one that is not UTF-8, or one without a NUL.
#[tactic(auto, using(crate::proofs::AuthenticationMechanismsLemmas::no_name_is_read, crate::proofs::AuthenticationMechanismsLemmas::no_utf8_is_read))]
pub fn split_name(bytes: &[u8]) -> Option<(&str, &[u8])>
    ensures found { IfSome result (λ name. BeginsWithName bytes.now name.0.now name.1.now) }
    ensures none { IfNone result (mechanisms_in bytes.now ≡ []) }
{
    let (name, rest) = split_raw_name(bytes)?;
    Some((utf8_text(name)?, rest))
}

/// The name of a mechanism at the front of some bytes, as [`split_name`], but of any bytes. Nothing where
/// the list ends: at an empty name, or one without a NUL.
pub fn split_raw_name(bytes: &[u8]) -> Option<(&[u8], &[u8])>
    ensures found { IfSome result (λ split. name.Reads bytes.now split.0.now split.1.now) }
    ensures none { IfNone result ((text rest : List ℕ) → ¬ (name.Reads bytes.now text rest)) }
{
    let (name, rest) = split_text(bytes)?;
    if name.is_empty() {
        return None;
    }
    Some((name, rest))
}
