//! A client's side: what it said that isn't answered, and how far the first answer has come.

ghost use Rattle.std.specs.Prelude.{◌≡◌, ◌≢◌, ◌+◌, ◌-◌, true, false, List, [], Option, Some, None, OnOk, OnErr, IfOk, IfErr, length};
ghost use Rattle.pg_flow.specs.Faults.{say_fault, copying_fault, end_fault, hear_fault, first_fault, rest_fault};
ghost use Rattle.pg_flow.specs.Plain.{state, resumed, from_sync, is_open, at_place};
ghost use Rattle.pg_flow.specs.ClientFlow.{Plain, Client, say, say_plain, say_copying, say_group, end_or_drop, drops_data, hear, hear_plain, hear_copying, hear_group, ready_group, all_syncs, behind, ends_first, ends_rest, whose, first_of, client_mode, takes_data, gives};

use crate::answer::Answer;
use crate::early_syncs::EarlySyncs;
use crate::fault::Fault;
use crate::heard::Heard;
use crate::mode::{Mode, mode_at};
use crate::place::{Place, end_at, has_ended, is_open};
use crate::request::Request;
use crate::table::{Next, ends_ready, step};
use std::alloc::Global;
use std::collections::VecDeque;

/// The flow of a client, from its first ReadyForQuery on.
#[derive(Drop)]
pub struct ClientFlow {
    pub early: EarlySyncs,
    /// The request that is being answered, but for a COPY with early Syncs.
    pub first: Option<Request>,
    /// The requests behind it.
    pub rest: VecDeque<Request>,
    pub place: Place,
    /// How many requests were said.
    pub said: u64,
    ghost in_order: { first ≡ None → rest.items ≡ [] },
}

impl ClientFlow {
    ghost use Rattle.pg_flow.specs.ClientFlow.View.{client_of, queue_in};

    pub fn new(alloc: Global) -> ClientFlow
        ensures client { client_of result ≡ Plain (state [] Place.Start) }
        ensures count { result.said ≡ 0 }
    {
        ClientFlow {
            early: EarlySyncs::Usual,
            first: None,
            rest: VecDeque::new(alloc),
            place: Place::Start,
            said: 0,
        }
    }

    /// Takes a request that is said, and returns its number.
    pub fn say(&mut self, request: Request) -> Result<u64, Fault>
        ensures ok { OnOk result (say request (client_of self.old) ≡ Some (client_of self.new)) }
        ensures number { IfOk result (λ number. number ≡ self.old.said) }
        ensures count { OnOk result (self.new.said ≡ self.old.said + 1) }
        ensures kept { OnErr result (self.new.said ≡ self.old.said) }
        ensures err { IfErr result (λ fault. fault ≢ Fault.Full
            → say request (client_of self.old) ≡ None) }
        ensures fault { IfErr result (λ fault. fault ≢ Fault.Full
            → fault ≡ say_fault (client_of self.old)) }
        ensures same { OnErr result (client_of self.new ≡ client_of self.old) }
    {
        let number = self.said;
        let Some(said) = number.checked_add(1) else {
            return Err(Fault::Full);
        };
        match self.early {
            EarlySyncs::Usual => self.say_usual(request)?,
            EarlySyncs::InCopy(early) => self.say_in_copy(early, request)?,
            EarlySyncs::InGroup(first, least, more, skips) => {
                self.say_in_group(first, least, more, skips, request)?
            }
        }
        self.said = said;
        Ok(number)
    }

    fn say_usual(&mut self, request: Request) -> Result<(), Fault>
        requires early { self.old.early ≡ EarlySyncs.Usual }
        ensures ok { OnOk result (say_plain (queue_in self.old) self.old.place request
            ≡ Some (client_of self.new)) }
        ensures err { IfErr result (λ fault. fault ≢ Fault.Full
            → say_plain (queue_in self.old) self.old.place request ≡ None) }
        ensures fault { IfErr result (λ fault. fault ≢ Fault.Full → fault ≡ Fault.InCopy) }
        ensures same { OnErr result (client_of self.new ≡ client_of self.old) }
        ensures said { self.new.said ≡ self.old.said }
    {
        if is_open(self.place) {
            return self.say_open(request);
        }
        if self.first.is_none() {
            if self.place != Place::Skipping || request == Request::Sync {
                self.first = Some(request);
                self.place = Place::Start;
            }
            return Ok(());
        }
        if self.rest.push_back(request).is_err() {
            return Err(Fault::Full);
        }
        Ok(())
    }

    // While the client gives data of a COPY.
    fn say_open(&mut self, request: Request) -> Result<(), Fault>
        requires early { self.old.early ≡ EarlySyncs.Usual }
        requires open { is_open self.old.place ≡ true }
        ensures ok { OnOk result (say_plain (queue_in self.old) self.old.place request
            ≡ Some (client_of self.new)) }
        ensures err { OnErr result (say_plain (queue_in self.old) self.old.place request ≡ None) }
        ensures fault { IfErr result (λ fault. fault ≡ Fault.InCopy) }
        ensures same { OnErr result (client_of self.new ≡ client_of self.old) }
        ensures said { self.new.said ≡ self.old.said }
    {
        if self.place == Place::Asked
            && request == Request::Sync
            && self.first == Some(Request::Execute)
            && self.rest.is_empty()
        {
            self.first = None;
            self.early = EarlySyncs::InCopy(0);
            return Ok(());
        }
        Err(Fault::InCopy)
    }

    fn say_in_copy(&mut self, early: u64, request: Request) -> Result<(), Fault>
        requires early { self.old.early ≡ EarlySyncs.InCopy early }
        ensures ok { OnOk result (say_copying early (queue_in self.old) self.old.place request
            ≡ Some (client_of self.new)) }
        ensures err { IfErr result (λ fault. fault ≢ Fault.Full
            → say_copying early (queue_in self.old) self.old.place request ≡ None) }
        ensures fault { IfErr result (λ fault. fault ≢ Fault.Full
            → fault ≡ copying_fault self.old.place) }
        ensures same { OnErr result (client_of self.new ≡ client_of self.old) }
        ensures said { self.new.said ≡ self.old.said }
    {
        if self.place == Place::Asked {
            if request != Request::Sync {
                return Err(Fault::InCopy);
            }
            let Some(more) = early.checked_add(1) else {
                return Err(Fault::Full);
            };
            self.early = EarlySyncs::InCopy(more);
            return Ok(());
        }
        if self.first.is_none() {
            if request != Request::Sync {
                return Err(Fault::SyncFirst);
            }
            self.first = Some(request);
            return Ok(());
        }
        if self.rest.push_back(request).is_err() {
            return Err(Fault::Full);
        }
        Ok(())
    }

    fn say_in_group(
        &mut self,
        first: u64,
        least: u64,
        more: u64,
        skips: bool,
        request: Request,
    ) -> Result<(), Fault>
        requires early { self.old.early ≡ EarlySyncs.InGroup first least more skips }
        ensures ok { OnOk result (say_group first least more (queue_in self.old) skips request
            ≡ Some (client_of self.new)) }
        ensures err { IfErr result (λ fault. fault ≢ Fault.Full
            → say_group first least more (queue_in self.old) skips request ≡ None) }
        ensures fault { IfErr result (λ fault. fault ≢ Fault.Full → fault ≡ Fault.SyncFirst) }
        ensures same { OnErr result (client_of self.new ≡ client_of self.old) }
        ensures said { self.new.said ≡ self.old.said }
    {
        if self.first.is_none() {
            if request == Request::Sync {
                let Some(least) = least.checked_add(1) else {
                    return Err(Fault::Full);
                };
                self.early = EarlySyncs::InGroup(first, least, more, false);
                return Ok(());
            }
            if skips {
                return Err(Fault::SyncFirst);
            }
            self.first = Some(request);
            return Ok(());
        }
        if self.rest.push_back(request).is_err() {
            return Err(Fault::Full);
        }
        Ok(())
    }

    /// Takes the end of the data of a COPY, which are whole or withheld. Where nothing that waits may take data, as after an
    /// error that crossed them, nothing comes of it.
    #[tactic(auto, using(crate::proofs::ClientFlowLemmas::asked_ends))]
    pub fn end_data(&mut self, is_whole: bool) -> Result<(), Fault>
        ensures ok { OnOk result (end_or_drop is_whole (client_of self.old)
            ≡ Some (client_of self.new)) }
        ensures err { OnErr result (end_or_drop is_whole (client_of self.old) ≡ None) }
        ensures fault { IfErr result (λ fault. fault ≡ end_fault (client_of self.old)) }
        ensures count { self.new.said ≡ self.old.said }
        ensures same { OnErr result (client_of self.new ≡ client_of self.old) }
    {
        if !self.is_asked() {
            if self.drops_data() {
                return Ok(());
            }
            return Err(Fault::NotInCopy);
        }
        let Some(place) = end_at(is_whole, self.place) else {
            return Err(Fault::NotRefusable);
        };
        self.place = place;
        Ok(())
    }

    // Whether data of a COPY are asked for.
    fn is_asked(&self) -> bool
        ensures { result ≡ takes_data (client_of self.now) }
    {
        match self.early {
            EarlySyncs::Usual => is_open(self.place),
            EarlySyncs::InCopy(_) => self.place == Place::Asked,
            EarlySyncs::InGroup(_, _, _, _) => false,
        }
    }

    // Whether nothing that waits may take data of a COPY.
    fn drops_data(&self) -> bool
        ensures { result ≡ drops_data (client_of self.now) }
    {
        match self.early {
            EarlySyncs::Usual => {
                self.first.is_none() || self.rest.is_empty() && self.place == Place::Failed
            }
            EarlySyncs::InCopy(_) => false,
            EarlySyncs::InGroup(_, _, _, _) => self.first.is_none(),
        }
    }

    /// Whether data of a COPY may be said: not once they are at an end, and the COPY isn't answered.
    pub fn may_give(&self) -> bool
        ensures { result ≡ gives (client_of self.now) }
    {
        match self.early {
            EarlySyncs::Usual => {
                self.first.is_none() || !self.rest.is_empty() || !has_ended(self.place)
            }
            EarlySyncs::InCopy(_) => self.first.is_some() || !has_ended(self.place),
            EarlySyncs::InGroup(_, _, _, _) => true,
        }
    }

    /// The number of the first request that waits; where none does, of the next one.
    pub fn first(&self) -> u64
        ensures { result ≡ first_of self.now.said (client_of self.now) }
    {
        match self.early {
            EarlySyncs::Usual => self.behind(),
            EarlySyncs::InCopy(early) => self.copy_number(early),
            EarlySyncs::InGroup(first, _, _, _) => first,
        }
    }

    /// How many requests were said.
    pub fn said(&self) -> u64
        ensures { result ≡ self.now.said }
    {
        self.said
    }

    /// What may be done now.
    pub fn mode(&self) -> Mode
        ensures { result ≡ client_mode (client_of self.now) }
    {
        match self.early {
            EarlySyncs::InCopy(_) if self.place == Place::Asked => Mode::CopyIn,
            EarlySyncs::InCopy(_) => Mode::Busy,
            EarlySyncs::Usual => self.usual_mode(),
            EarlySyncs::InGroup(_, least, _, skips) => {
                if least > 0 || self.first.is_some() {
                    Mode::Busy
                } else if skips {
                    Mode::Skipping
                } else {
                    Mode::Idle
                }
            }
        }
    }

    fn usual_mode(&self) -> Mode
        requires early { self.now.early ≡ EarlySyncs.Usual }
        ensures { result ≡ client_mode (client_of self.now) }
    {
        if self.first.is_some() {
            return mode_at(self.place);
        }
        if self.place == Place::Skipping {
            Mode::Skipping
        } else {
            Mode::Idle
        }
    }

    // How many requests wait in the queue.
    fn waiting(&self) -> u64
        ensures { result ≡ length (queue_in self.now) }
    {
        if self.first.is_none() {
            return 0;
        }
        self.rest.len() as u64 + 1
    }

    // The number of the first request in the queue.
    fn behind(&self) -> u64
        ensures { result ≡ self.now.said - length (queue_in self.now) }
    {
        self.said.saturating_sub(self.waiting())
    }

    // The number of the COPY before the early Syncs.
    fn copy_number(&self, early: u64) -> u64
        ensures { result ≡ self.now.said - (length (queue_in self.now) + (early + 2)) }
    {
        self.behind().saturating_sub(early).saturating_sub(2)
    }

    /// Takes an answer that is heard, and returns whose it is.
    pub fn hear(&mut self, answer: Answer) -> Result<Heard, Fault>
        ensures ok { OnOk result (hear self.old.said answer (client_of self.old)
            ≡ Some (client_of self.new)) }
        ensures err { OnErr result (hear self.old.said answer (client_of self.old) ≡ None) }
        ensures fault { IfErr result (λ fault. fault ≡ hear_fault answer (client_of self.old)) }
        ensures whose { IfOk result (λ heard.
            heard ≡ whose self.old.said answer (client_of self.old)) }
        ensures count { self.new.said ≡ self.old.said }
        ensures same { OnErr result (client_of self.new ≡ client_of self.old) }
    {
        match self.early {
            EarlySyncs::Usual => {
                let request = self.behind();
                let is_last = self.hear_usual(answer)?;
                Ok(Heard::Answer { request, is_last })
            }
            EarlySyncs::InCopy(early) => {
                let request = self.copy_number(early);
                let is_last = self.hear_in_copy(early, answer)?;
                Ok(Heard::Answer { request, is_last })
            }
            EarlySyncs::InGroup(first, least, more, skips) => {
                let request = self.behind();
                let is_last = self.hear_in_group(first, least, more, skips, answer)?;
                if answer == Answer::Ready {
                    let last = request.saturating_sub(1);
                    return Ok(Heard::Group { first, last });
                }
                Ok(Heard::Answer { request, is_last })
            }
        }
    }

    fn hear_usual(&mut self, answer: Answer) -> Result<bool, Fault>
        requires early { self.old.early ≡ EarlySyncs.Usual }
        ensures ok { OnOk result (hear_plain answer (queue_in self.old) self.old.place
            ≡ Some (client_of self.new)) }
        ensures err { OnErr result (hear_plain answer (queue_in self.old) self.old.place ≡ None) }
        ensures fault { IfErr result (λ fault.
            fault ≡ first_fault answer (queue_in self.old) self.old.place) }
        ensures last { IfOk result (λ is_last.
            is_last ≡ ends_first answer (queue_in self.old) self.old.place) }
        ensures same { OnErr result (client_of self.new ≡ client_of self.old) }
        ensures said { self.new.said ≡ self.old.said }
    {
        let Some(request) = self.first else {
            return Err(Fault::Unasked);
        };
        if answer == Answer::Failure {
            return self.fail(request);
        }
        if answer == Answer::CopyIn && request == Request::Execute && self.place == Place::Start {
            return self.begin_copy();
        }
        match step(request, self.place, answer) {
            Next::Wrong => Err(Fault::NotAnAnswer),
            Next::Done => {
                self.first = self.rest.pop_front();
                self.place = Place::Start;
                Ok(true)
            }
            Next::At(place) => self.come_to(request, place),
        }
    }

    // The answer to a request comes to a place. While the client gives data of a COPY, it has said nothing behind it.
    fn come_to(&mut self, request: Request, place: Place) -> Result<bool, Fault>
        requires first { self.old.first ≡ Some request }
        ensures ok { OnOk result (at_place place request self.old.rest.items
            ≡ Some (state (queue_in self.new) self.new.place)) }
        ensures err { OnErr result (at_place place request self.old.rest.items ≡ None) }
        ensures fault { IfErr result (λ fault. fault ≡ Fault.BehindCopy) }
        ensures open { OnErr result (is_open place ≡ true) }
        ensures last { IfOk result (λ is_last. is_last ≡ false) }
        ensures same { OnErr result (client_of self.new ≡ client_of self.old) }
        ensures early { self.new.early ≡ self.old.early }
        ensures said { self.new.said ≡ self.old.said }
    {
        if is_open(place) && !self.rest.is_empty() {
            return Err(Fault::BehindCopy);
        }
        self.place = place;
        Ok(false)
    }

    // Whether all that was said behind the first is Syncs.
    fn are_syncs(&self) -> bool
        ensures { result ≡ all_syncs self.now.rest.items }
    {
        let mut i: usize = 0;
        while i < self.rest.len() {
            if self.rest[i] != Request::Sync {
                return false;
            }
            i += 1;
        }
        true
    }

    // An Execute is a COPY that asks for data.
    fn begin_copy(&mut self) -> Result<bool, Fault>
        requires early { self.old.early ≡ EarlySyncs.Usual }
        requires first { self.old.first ≡ Some Request.Execute }
        requires place { self.old.place ≡ Place.Start }
        ensures ok { OnOk result (hear_plain Answer.CopyIn (queue_in self.old) Place.Start
            ≡ Some (client_of self.new)) }
        ensures err { OnErr result (hear_plain Answer.CopyIn (queue_in self.old) Place.Start
            ≡ None) }
        ensures fault { IfErr result (λ fault. fault ≡ Fault.BehindCopy) }
        ensures last { IfOk result (λ is_last. is_last ≡ false) }
        ensures same { OnErr result (client_of self.new ≡ client_of self.old) }
        ensures said { self.new.said ≡ self.old.said }
    {
        let behind = self.rest.len();
        if behind == 0 {
            self.place = Place::Asked;
            return Ok(false);
        }
        if !self.are_syncs() {
            return Err(Fault::BehindCopy);
        }
        self.early = EarlySyncs::InCopy(behind as u64 - 1);
        self.first = None;
        self.rest.clear();
        self.place = Place::Asked;
        Ok(false)
    }

    // Leaves out what a server passes over after an error.
    fn pass_over(&mut self)
        ensures goes { state (queue_in self.new) self.new.place
            ≡ resumed (from_sync self.old.rest.items) }
        ensures early { self.new.early ≡ self.old.early }
        ensures said { self.new.said ≡ self.old.said }
    {
        while let Some(request) = self.rest.pop_front() {
            self.first = Some(request);
            if request == Request::Sync {
                self.place = Place::Start;
                return;
            }
        }
        self.first = None;
        self.place = Place::Skipping;
    }

    // Takes an error.
    fn fail(&mut self, request: Request) -> Result<bool, Fault>
        requires early { self.old.early ≡ EarlySyncs.Usual }
        requires first { self.old.first ≡ Some request }
        ensures ok { OnOk result (hear_plain Answer.Failure (queue_in self.old) self.old.place
            ≡ Some (client_of self.new)) }
        ensures err { OnErr result (hear_plain Answer.Failure (queue_in self.old) self.old.place
            ≡ None) }
        ensures fault { IfErr result (λ fault. fault ≡ Fault.NotAnAnswer) }
        ensures last { IfOk result (λ is_last.
            is_last ≡ ends_first Answer.Failure (queue_in self.old) self.old.place) }
        ensures same { OnErr result (client_of self.new ≡ client_of self.old) }
        ensures said { self.new.said ≡ self.old.said }
    {
        if !ends_ready(request) {
            self.pass_over();
            return Ok(true);
        }
        if self.place == Place::Failed {
            return Err(Fault::NotAnAnswer);
        }
        self.place = Place::Failed;
        Ok(false)
    }

    fn hear_in_copy(&mut self, early: u64, answer: Answer) -> Result<bool, Fault>
        requires early { self.old.early ≡ EarlySyncs.InCopy early }
        ensures ok { OnOk result (
            hear_copying self.old.said early (queue_in self.old) self.old.place answer
            ≡ Some (client_of self.new)) }
        ensures err { OnErr result (
            hear_copying self.old.said early (queue_in self.old) self.old.place answer ≡ None) }
        ensures fault { IfErr result (λ fault. fault ≡ Fault.NotAnAnswer) }
        ensures last { IfOk result (λ is_last. is_last ≡ true) }
        ensures same { OnErr result (client_of self.new ≡ client_of self.old) }
        ensures said { self.new.said ≡ self.old.said }
    {
        if answer == Answer::Failure {
            self.fail_copy(early);
            return Ok(true);
        }
        match step(Request::Execute, self.place, answer) {
            Next::Done => {
                self.early = EarlySyncs::Usual;
                self.place = Place::Start;
                Ok(true)
            }
            _ => Err(Fault::NotAnAnswer),
        }
    }

    // Leaves out the Syncs at the front.
    fn drop_syncs(&mut self)
        ensures goes { queue_in self.new ≡ behind (queue_in self.old) }
        ensures said { self.new.said ≡ self.old.said }
    {
        while self.first == Some(Request::Sync) {
            self.first = self.rest.pop_front();
        }
    }

    // A COPY with early Syncs fails.
    fn fail_copy(&mut self, early: u64)
        ensures goes { hear_copying self.old.said early (queue_in self.old) self.old.place
            Answer.Failure ≡ Some (client_of self.new) }
        ensures said { self.new.said ≡ self.old.said }
    {
        let waiting = self.waiting();
        let skips = waiting == 0;
        let first = self
            .said
            .saturating_sub(waiting)
            .saturating_sub(early)
            .saturating_sub(1);
        self.drop_syncs();
        let least = waiting.saturating_sub(self.waiting());
        self.early = EarlySyncs::InGroup(first, least, early, skips);
    }

    fn hear_in_group(
        &mut self,
        first: u64,
        least: u64,
        more: u64,
        skips: bool,
        answer: Answer,
    ) -> Result<bool, Fault>
        requires early { self.old.early ≡ EarlySyncs.InGroup first least more skips }
        ensures ok { OnOk result (hear_group first least more (queue_in self.old) answer
            ≡ Some (client_of self.new)) }
        ensures err { OnErr result (hear_group first least more (queue_in self.old) answer
            ≡ None) }
        ensures fault { IfErr result (λ fault.
            fault ≡ rest_fault least (queue_in self.old) answer) }
        ensures last { IfOk result (λ is_last. is_last ≡ ends_rest answer (queue_in self.old)) }
        ensures same { OnErr result (client_of self.new ≡ client_of self.old) }
        ensures said { self.new.said ≡ self.old.said }
    {
        if answer == Answer::Ready {
            self.hear_ready(first, least, more);
            return Ok(false);
        }
        if least > 0 {
            return Err(Fault::NotAnAnswer);
        }
        self.early = EarlySyncs::Usual;
        self.place = Place::Start;
        let heard = self.hear_usual(answer);
        if heard.is_err() {
            self.early = EarlySyncs::InGroup(first, least, more, skips);
        }
        heard
    }

    fn hear_ready(&mut self, first: u64, least: u64, more: u64)
        ensures goes { ready_group first least more (queue_in self.old) ≡ client_of self.new }
        ensures said { self.new.said ≡ self.old.said }
    {
        if least > 0 {
            self.early = EarlySyncs::InGroup(first, least - 1, more, false);
        } else if more > 0 {
            self.early = EarlySyncs::InGroup(first, 0, more - 1, false);
        } else {
            self.early = EarlySyncs::Usual;
            self.place = Place::Start;
        }
    }
}
