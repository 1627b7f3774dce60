//! The core of a proxy: a stream's bytes in, its frames as they become whole, and the same bytes out unless
//! its user puts something else in a frame's place.

mod answer;
mod error;
mod event;
mod fate;
mod head;
pub mod laws;
mod pass;
mod passage;
mod state;
mod wants;

ghost use Rattle.std.specs.Prelude.{◌≡◌, ◌<◌, ℕ, Bool, [], ◌++◌, length, IfOk, OnOk, IfErr, OnErr};
ghost use Rattle.pg_frames.specs.declared.frontend.frame.Expects.TheVariants.{First, Tagged};
ghost use Rattle.pg_frames.specs.Relay.Head.{AreMissing};
ghost use Rattle.pg_frames.specs.Relay.{HasFate, IsUnfinished, IsRelayError, RefusesMore, TakesIfWanted, TakesStep, holding};
ghost use Rattle.pg_frames.specs.declared.relay.error.RelayError.TheVariants.{OutOfMemory};

use crate::frontend::Expects;
use crate::relay::fate::{Fate, fate_of};
use crate::relay::head::{head_of, length_of_head, next_after};
pub use answer::{Answer, end_of_run};
pub use error::RelayError;
pub use event::{Event, FrameBytes, Step};
pub use pass::{Answers, pass_piece, pass_pieces};
pub use passage::{Passage, next_passage};
use std::alloc::Global;
use std::marker::Model;
use std::mem;
pub use wants::{All, Wants};

/// Takes the bytes of one direction of a connection in pieces of any length, and gives back what goes out: each
/// frame whole, as soon as its last byte has come, or in parts where its user doesn't want it whole.
/// Documentation: "Messaging Overview".
///
/// A frame that lies in one piece is handed out where it lies. Only the front of a frame that goes on after the
/// piece is held, and only where it is wanted whole and has no more bytes than a limit. The relay asks for memory
/// as these bytes come and never for a length that a frame announces.
#[derive(Drop)]
pub struct Relay {
    alloc: Global,
    limit: usize,
    expects: Expects,
    held: Vec<u8>,
    left: usize,
}

impl Model for Relay {
    ghost use Rattle.pg_frames.specs.Relay.{Relaying, IsKept, relay_at};

    ghost Value = { Relaying };

    ghost view = { λ relay. relay_at relay.limit relay.expects relay.held.items relay.left };

    ghost invariant = { λ relay. IsKept relay.limit relay.expects relay.held.items relay.left };
}

impl Relay {
    /// A relay of a server's stream, from a message with a tag on, that takes frames of up to so many bytes whole.
    /// Where the server answers a request for encryption by a single byte, that byte is no part of it. It takes
    /// no memory.
    #[tactic(auto, using(crate::proofs::RelayHeadLemmas::head_positive))]
    pub fn of_server(alloc: Global, limit: usize) -> Relay
        ensures { result ≡ holding limit Tagged [] }
    {
        Relay {
            alloc,
            limit,
            expects: Expects::Tagged,
            held: Vec::new(alloc),
            left: 0,
        }
    }

    /// A relay of a client's stream from the start of a connection, as [`of_server`](Relay::of_server).
    #[tactic(auto, using(crate::proofs::RelayHeadLemmas::head_positive))]
    pub fn of_client(alloc: Global, limit: usize) -> Relay
        ensures { result ≡ holding limit First [] }
    {
        Relay {
            alloc,
            limit,
            expects: Expects::First,
            held: Vec::new(alloc),
            left: 0,
        }
    }

    /// Takes the front of a piece, and says what comes of it: a frame, a part of one, or nothing yet. The rest of
    /// the piece is the next piece; where it is empty, all is taken.
    ///
    /// Once its tag and its length are there, a length below 4 is `BadLength`, and below 8 of a client's first
    /// message; a frame that is wanted whole and is longer than the limit is `TooLong`. Only where bytes have to be
    /// held may memory run out. Each error leaves the relay as it was, so the same call may be made again.
    #[inline(always)]
    pub fn next<'a, W: Wants>(&mut self, wants: &W, piece: &'a [u8]) -> Result<Step<'a>, RelayError>
        ensures takes { IfOk result (TakesStep (W.wanted wants.now) self.old piece.now self.new) }
        ensures error { IfErr result (IsRelayError (W.wanted wants.now) self.old piece.now) }
        ensures err { OnErr result (self.new ≡ self.old) }
    {
        if self.left > 0 {
            return Ok(self.next_part(piece));
        }
        if self.held.is_empty() {
            self.next_in_piece(wants, piece)
        } else {
            self.next_joined(wants, piece)
        }
    }

    // Where a frame is passed on in parts.
    fn next_part<'a>(&mut self, piece: &'a [u8]) -> Step<'a>
        requires { 0 < self.old.left }
        ensures { (wants : ℕ → ℕ → Bool) → TakesStep wants self.old piece.now self.new result }
    {
        let (bytes, rest) = piece.split_at(self.left.min(piece.len()));
        self.left -= bytes.len();
        let bytes = FrameBytes::Lying(bytes);
        let left = self.left;
        Step {
            event: Event::Part { bytes, left },
            rest,
        }
    }

    // Where nothing is held.
    #[inline(always)]
    fn next_in_piece<'a, W: Wants>(
        &mut self,
        wants: &W,
        piece: &'a [u8],
    ) -> Result<Step<'a>, RelayError>
        requires between { self.old.left ≡ 0 }
        requires nothing { self.old.held ≡ [] }
        ensures takes { IfOk result (TakesStep (W.wanted wants.now) self.old piece.now self.new) }
        ensures error { IfErr result (IsRelayError (W.wanted wants.now) self.old piece.now) }
        ensures err { OnErr result (self.new ≡ self.old) }
    {
        match fate_of(wants, self.limit, self.expects, piece)? {
            Fate::Parts(count) => {
                let (bytes, rest) = piece.split_at(count.min(piece.len()));
                let left = count - bytes.len();
                self.left = left;
                let bytes = FrameBytes::Lying(bytes);
                Ok(Step {
                    event: Event::Part { bytes, left },
                    rest,
                })
            }
            Fate::Whole(tag, count) => {
                let Some((bytes, rest)) = piece.split_at_checked(count) else {
                    return self.hold(piece);
                };
                self.expects = next_after(self.expects, bytes);
                let bytes = FrameBytes::Lying(bytes);
                Ok(Step {
                    event: Event::Frame { tag, bytes },
                    rest,
                })
            }
            Fate::Unknown => self.hold(piece),
        }
    }

    // Holds all of a piece that is no whole frame.
    fn hold<'a>(&mut self, piece: &'a [u8]) -> Result<Step<'a>, RelayError>
        requires between { self.old.left ≡ 0 }
        requires nothing { self.old.held ≡ [] }
        requires unfinished { IsUnfinished self.old.limit self.old.expects piece.now }
        ensures takes { IfOk result (TakesIfWanted self.old piece.now self.new) }
        ensures error { IfErr result (λ error. (error ≡ OutOfMemory) × (0 < length piece.now)) }
        ensures err { OnErr result (self.new ≡ self.old) }
    {
        self.held.extend_from_slice(piece)?;
        Ok(Step {
            event: Event::Held,
            rest: &piece[piece.len()..],
        })
    }

    // Where the front of a frame is held: takes what is missing of its head, or else of the frame.
    fn next_joined<'a, W: Wants>(
        &mut self,
        wants: &W,
        piece: &'a [u8],
    ) -> Result<Step<'a>, RelayError>
        requires between { self.old.left ≡ 0 }
        requires some { 0 < length self.old.held }
        ensures takes { IfOk result (TakesStep (W.wanted wants.now) self.old piece.now self.new) }
        ensures error { IfErr result (IsRelayError (W.wanted wants.now) self.old piece.now) }
        ensures err { OnErr result (self.new ≡ self.old) }
    {
        let missing = missing_of(self.expects, self.held.as_slice());
        let (bytes, rest) = piece.split_at(missing.min(piece.len()));
        match fate_with(wants, self.limit, self.expects, &mut self.held, bytes)? {
            Fate::Parts(count) => {
                let left = count - self.held.len();
                self.left = left;
                let bytes = FrameBytes::Joined(mem::replace(&mut self.held, Vec::new(self.alloc)));
                Ok(Step {
                    event: Event::Part { bytes, left },
                    rest,
                })
            }
            Fate::Whole(tag, count) => {
                if self.held.len() < count {
                    return Ok(Step {
                        event: Event::Held,
                        rest,
                    });
                }
                self.expects = next_after(self.expects, self.held.as_slice());
                let bytes = FrameBytes::Joined(mem::replace(&mut self.held, Vec::new(self.alloc)));
                Ok(Step {
                    event: Event::Frame { tag, bytes },
                    rest,
                })
            }
            Fate::Unknown => Ok(Step {
                event: Event::Held,
                rest,
            }),
        }
    }
}

// Adds bytes to what is held, and says what becomes of its frame then; where it is an error, nothing is added.
#[tactic(auto, using(crate::proofs::RelayLemmas::fault_is_error))]
fn fate_with<W: Wants>(
    wants: &W,
    limit: usize,
    expects: Expects,
    held: &mut Vec<u8>,
    bytes: &[u8],
) -> Result<Fate, RelayError>
    requires { 0 < length held.old.items }
    ensures held { OnOk result (held.new.items ≡ held.old.items ++ bytes.now) }
    ensures fate { IfOk result (HasFate (W.wanted wants.now) limit expects held.new.items) }
    ensures error { RefusesMore (W.wanted wants.now) limit expects held.old.items bytes.now result }
    ensures err { OnErr result (held.new.items ≡ held.old.items) }
{
    let before = held.len();
    held.extend_from_slice(bytes)?;
    match fate_of(wants, limit, expects, held.as_slice()) {
        Ok(fate) => Ok(fate),
        Err(error) => {
            held.truncate(before);
            Err(error)
        }
    }
}

// How many bytes are missing of a frame that isn't whole: of its head, or else of all of it.
fn missing_of(expects: Expects, held: &[u8]) -> usize
    requires { (limit : ℕ) × IsUnfinished limit expects held.now }
    ensures some { 0 < result }
    ensures within { AreMissing expects held.now result }
{
    match head_of(expects, held) {
        Ok(Some(head)) => head.count - held.len(),
        Ok(None) => length_of_head(expects) - held.len(),
        Err(_) => unreachable!(),
    }
}
