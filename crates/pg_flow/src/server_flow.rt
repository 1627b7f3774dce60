//! A server's side, the mirror of a client's: it takes one request after another, each once it is done with the one before.

ghost use Rattle.std.specs.Prelude.{◌≡◌, ◌≢◌, ◌+◌, [], Option, Some, None, true, OnOk, OnErr, IfOk, IfErr};
ghost use Rattle.pg_flow.specs.Faults.{take_fault, take_end_fault, tell_fault};
ghost use Rattle.pg_flow.specs.Plain.{went, is_last, is_done};
ghost use Rattle.pg_flow.specs.ServerFlow.{Asks, Ends, Idle, take, tell, told, whose_told, reads, server_mode, first_taken};

use crate::answer::Answer;
use crate::fault::Fault;
use crate::heard::Heard;
use crate::mode::{Mode, mode_at};
use crate::place::{Place, end_at, is_open};
use crate::request::Request;
use crate::table::{Next, ends_ready, step};

/// The flow of a server, from its first ReadyForQuery on.
#[derive(Drop)]
pub struct ServerFlow {
    /// The request that is being answered.
    pub request: Option<Request>,
    /// Its number.
    pub number: u64,
    pub place: Place,
    /// Nothing was done since the last ReadyForQuery or error, so that a Sync can't fail.
    pub quiet: bool,
    /// How many requests were taken.
    pub taken: u64,
}

impl ServerFlow {
    ghost use Rattle.pg_flow.specs.ServerFlow.View.{server_of, server_as};

    pub fn new() -> ServerFlow
        ensures server { server_of result ≡ Idle true }
        ensures count { result.taken ≡ 0 }
    {
        ServerFlow {
            request: None,
            number: 0,
            place: Place::Start,
            quiet: true,
            taken: 0,
        }
    }

    /// Takes a request, and returns its number.
    pub fn take(&mut self, request: Request) -> Result<u64, Fault>
        ensures ok { OnOk result (take (Asks request) (server_of self.old) self.old.taken
            ≡ Some (server_of self.new)) }
        ensures number { IfOk result (λ number. number ≡ self.old.taken) }
        ensures count { OnOk result (self.new.taken ≡ self.old.taken + 1) }
        ensures kept { OnErr result (self.new.taken ≡ self.old.taken) }
        ensures err { IfErr result (λ fault. fault ≢ Fault.Full
            → take (Asks request) (server_of self.old) self.old.taken ≡ None) }
        ensures fault { IfErr result (λ fault. fault ≢ Fault.Full
            → fault ≡ take_fault (server_of self.old)) }
        ensures same { OnErr result (server_of self.new ≡ server_of self.old) }
    {
        let number = self.taken;
        let Some(taken) = number.checked_add(1) else {
            return Err(Fault::Full);
        };
        if self.request.is_some() {
            if self.place != Place::Asked {
                return Err(if is_open(self.place) {
                    Fault::InCopy
                } else {
                    Fault::Busy
                });
            }
            if request != Request::Sync {
                return Err(Fault::InCopy);
            }
        } else if self.place != Place::Skipping {
            self.begin(request, self.quiet);
        } else if request == Request::Sync {
            self.begin(request, true);
        }
        self.taken = taken;
        Ok(number)
    }

    fn begin(&mut self, request: Request, quiet: bool)
        ensures begins { server_of self.new
            ≡ server_as (Some request) Place.Start quiet self.old.taken }
        ensures taken { self.new.taken ≡ self.old.taken }
    {
        self.request = Some(request);
        self.place = Place::Start;
        self.quiet = quiet;
        self.number = self.taken;
    }

    /// Takes the end of the data of a COPY, which are whole or withheld. While no request is answered, nothing comes of it.
    pub fn take_end(&mut self, is_whole: bool) -> Result<(), Fault>
        ensures ok { OnOk result (take (Ends is_whole) (server_of self.old) self.old.taken
            ≡ Some (server_of self.new)) }
        ensures count { self.new.taken ≡ self.old.taken }
        ensures err { OnErr result (take (Ends is_whole) (server_of self.old) self.old.taken
            ≡ None) }
        ensures fault { IfErr result (λ fault. fault ≡ take_end_fault (server_of self.old)) }
        ensures same { OnErr result (server_of self.new ≡ server_of self.old) }
    {
        if self.request.is_none() {
            return Ok(());
        }
        let Some(place) = end_at(is_whole, self.place) else {
            return Err(if is_open(self.place) {
                Fault::NotRefusable
            } else {
                Fault::Busy
            });
        };
        self.place = place;
        Ok(())
    }

    /// Whether data of a COPY, or a Flush, are taken now.
    pub fn reads(&self) -> bool
        ensures { result ≡ reads (server_of self.now) }
    {
        self.request.is_none() || is_open(self.place)
    }

    /// The number of the request that is answered; where none is, of the next one.
    pub fn first(&self) -> u64
        ensures { result ≡ first_taken self.now.taken (server_of self.now) }
    {
        if self.request.is_some() {
            self.number
        } else {
            self.taken
        }
    }

    /// How many requests were taken.
    pub fn taken(&self) -> u64
        ensures { result ≡ self.now.taken }
    {
        self.taken
    }

    /// What may be done now.
    pub fn mode(&self) -> Mode
        ensures { result ≡ server_mode (server_of self.now) }
    {
        if self.request.is_some() {
            mode_at(self.place)
        } else if self.place == Place::Skipping {
            Mode::Skipping
        } else {
            Mode::Idle
        }
    }

    /// Takes an answer that is to be said, and returns whose it is.
    #[tactic(auto, using(crate::proofs::ServerFlowLemmas::tells_rest))]
    pub fn tell(&mut self, answer: Answer) -> Result<Heard, Fault>
        ensures ok { OnOk result (tell answer (server_of self.old)
            ≡ Some (server_of self.new)) }
        ensures whose { IfOk result (λ heard. heard ≡ whose_told answer (server_of self.old)) }
        ensures count { self.new.taken ≡ self.old.taken }
        ensures err { OnErr result (tell answer (server_of self.old) ≡ None) }
        ensures fault { IfErr result (λ fault. fault ≡ tell_fault (server_of self.old)) }
        ensures same { OnErr result (server_of self.new ≡ server_of self.old) }
    {
        let Some(request) = self.request else {
            return Err(Fault::Unasked);
        };
        let number = self.number;
        let is_last = if answer == Answer::Failure {
            self.fail(request)?
        } else {
            self.go_on(request, step(request, self.place, answer))?
        };
        Ok(Heard::Answer {
            request: number,
            is_last,
        })
    }

    fn go_on(&mut self, request: Request, next: Next) -> Result<bool, Fault>
        requires { self.old.request ≡ Some request }
        ensures ok { OnOk result (
            told (went next request []) request self.old.quiet self.old.number
            ≡ Some (server_of self.new)) }
        ensures last { IfOk result (λ last. last ≡ is_done next) }
        ensures count { self.new.taken ≡ self.old.taken }
        ensures err { OnErr result (
            told (went next request []) request self.old.quiet self.old.number ≡ None) }
        ensures fault { IfErr result (λ fault. fault ≡ Fault.NotAnAnswer) }
        ensures same { OnErr result (server_of self.new ≡ server_of self.old) }
    {
        match next {
            Next::Wrong => Err(Fault::NotAnAnswer),
            Next::Done => {
                self.request = None;
                self.place = Place::Start;
                self.quiet = ends_ready(request);
                Ok(true)
            }
            Next::At(place) => {
                self.place = place;
                Ok(false)
            }
        }
    }

    fn fail(&mut self, request: Request) -> Result<bool, Fault>
        requires { self.old.request ≡ Some request }
        ensures ok { OnOk result (tell Answer.Failure (server_of self.old)
            ≡ Some (server_of self.new)) }
        ensures last { IfOk result (λ last. last ≡ is_last Answer.Failure request self.old.place) }
        ensures count { self.new.taken ≡ self.old.taken }
        ensures err { OnErr result (tell Answer.Failure (server_of self.old) ≡ None) }
        ensures fault { IfErr result (λ fault. fault ≡ Fault.NotAnAnswer) }
        ensures same { OnErr result (server_of self.new ≡ server_of self.old) }
    {
        match request {
            Request::Query | Request::Call => {
                if self.place == Place::Failed {
                    return Err(Fault::NotAnAnswer);
                }
                self.place = Place::Failed;
                Ok(false)
            }
            Request::Sync => {
                if self.quiet || self.place == Place::Failed {
                    return Err(Fault::NotAnAnswer);
                }
                self.place = Place::Failed;
                Ok(false)
            }
            _ => {
                self.request = None;
                self.place = Place::Skipping;
                Ok(true)
            }
        }
    }
}
