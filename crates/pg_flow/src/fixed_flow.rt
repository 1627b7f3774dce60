//! A flow of fixed size.

ghost use Rattle.std.specs.Prelude.{◌≡◌, ◌≢◌, ◌≤◌, Some, None, true, false, OnOk, OnErr, IfOk, IfErr, length, map, take};
ghost use Rattle.pg_flow.specs.ClientFlow.View.{client_of};
ghost use Rattle.pg_flow.specs.ServerFlow.View.{server_of};
ghost use Rattle.pg_flow.specs.Flow.{OfClient, session_said, session_number, session_heard, session_whose, session_mode, first_in, count_of, first_session, new_client, new_server};
ghost use Rattle.pg_flow.specs.Flow.View.{session_of, side_of};
ghost use Rattle.pg_flow.specs.Codes.{mode_number, request_as};
ghost use Rattle.pg_flow.specs.FixedFlow.{IsShown, begun, early_as, session_in, side_in, client_side, server_side};

use crate::client_flow::ClientFlow;
use crate::codes::{
    asked_of, letter_of, number_of_asked, number_of_mode, number_of_place, number_of_request,
    number_of_stage, place_of, request_of, stage_of, status_of,
};
use crate::early_syncs::EarlySyncs;
use crate::fault::Fault;
use crate::flow::{Flow, Role};
use crate::heard::Heard;
use crate::request::Request;
use crate::server_flow::ServerFlow;
use std::alloc::Global;
use std::collections::VecDeque;

/// How many requests may wait behind the first.
const ROOM: usize = 1024;

/// A [`Flow`] of fixed size, which holds no memory and may be copied. At most 1025 requests wait in it, and a call needs
/// memory while more than one does.
#[repr(C)]
#[derive(Clone, Copy)]
pub struct FixedFlow {
    pub mode: u8,
    pub status: u8,
    pub has_left: bool,
    pub is_server: bool,
    pub first: u64,
    pub count: u64,
    pub stage: u8,
    pub place: u8,
    pub request: u8,
    pub early: u8,
    pub skips: bool,
    pub is_quiet: bool,
    pub group: u64,
    pub least: u64,
    pub more: u64,
    pub behind: usize,
    pub requests: [u8; 1024],
}

impl FixedFlow {
    /// The flow of a client that has said nothing yet.
    pub fn client() -> FixedFlow
        ensures flow { session_in result ≡ first_session new_client }
        ensures shown { IsShown result }
    {
        begun(false)
    }

    /// The flow of a server that has taken nothing yet.
    pub fn server() -> FixedFlow
        ensures flow { session_in result ≡ first_session new_server }
        ensures shown { IsShown result }
    {
        begun(true)
    }

    /// Takes a message from the client, as [`Flow::said`] does.
    pub fn said(&mut self, alloc: Global, tag: u8, first: &[u8]) -> Result<Option<u64>, Fault>
        ensures ok { OnOk result (session_said tag first.now (session_in self.old)
            ≡ Some (session_in self.new)) }
        ensures number { IfOk result (λ number.
            number ≡ session_number tag first.now (session_in self.old)) }
        ensures err { IfErr result (λ fault. fault ≢ Fault.Full
            → session_said tag first.now (session_in self.old) ≡ None) }
        ensures same { OnErr result (self.new ≡ self.old) }
        ensures shown { OnOk result (IsShown self.new) }
    {
        let mut flow = self.restored(alloc)?;
        let number = flow.said(tag, first)?;
        self.save(&flow)?;
        Ok(number)
    }

    /// Takes a message from the server, as [`Flow::heard`] does.
    pub fn heard(&mut self, alloc: Global, tag: u8, first: &[u8]) -> Result<Heard, Fault>
        ensures ok { OnOk result (session_heard tag first.now (session_in self.old)
            ≡ Some (session_in self.new)) }
        ensures whose { IfOk result (λ heard.
            heard ≡ session_whose tag first.now (session_in self.old)) }
        ensures err { IfErr result (λ fault. fault ≢ Fault.Full
            → session_heard tag first.now (session_in self.old) ≡ None) }
        ensures same { OnErr result (self.new ≡ self.old) }
        ensures shown { OnOk result (IsShown self.new) }
    {
        let mut flow = self.restored(alloc)?;
        let heard = flow.heard(tag, first)?;
        self.save(&flow)?;
        Ok(heard)
    }

    fn restored(&self, alloc: Global) -> Result<Flow, Fault>
        ensures ok { IfOk result (λ flow. session_of flow ≡ session_in self.now) }
        ensures err { IfErr result (λ fault. fault ≡ Fault.Full) }
    {
        let role = self.restored_role(alloc)?;
        Ok(Flow {
            stage: stage_of(self.stage),
            left: self.has_left,
            role,
            status: status_of(self.status),
        })
    }

    fn restored_role(&self, alloc: Global) -> Result<Role, Fault>
        ensures ok { IfOk result (λ role. side_of role ≡ side_in self.now) }
        ensures err { IfErr result (λ fault. fault ≡ Fault.Full) }
    {
        if self.is_server {
            return Ok(Role::Server(ServerFlow {
                request: asked_of(self.request),
                number: self.first,
                place: place_of(self.place),
                quiet: self.is_quiet,
                taken: self.count,
            }));
        }
        let client = self.restored_client(alloc)?;
        Ok(Role::Client(client))
    }

    fn restored_client(&self, alloc: Global) -> Result<ClientFlow, Fault>
        ensures ok { IfOk result (λ client.
            OfClient (client_of client) client.said ≡ client_side self.now) }
        ensures err { IfErr result (λ fault. fault ≡ Fault.Full) }
    {
        let early = early_of(self.early, self.group, self.least, self.more, self.skips);
        let place = place_of(self.place);
        let said = self.count;
        let Some(request) = asked_of(self.request) else {
            return Ok(ClientFlow {
                early,
                first: None,
                rest: VecDeque::new(alloc),
                place,
                said,
            });
        };
        if self.behind > ROOM {
            return Err(Fault::Full);
        }
        let rest = queue_of(alloc, &self.requests[..self.behind])?;
        Ok(ClientFlow {
            early,
            first: Some(request),
            rest,
            place,
            said,
        })
    }

    fn save(&mut self, flow: &Flow) -> Result<(), Fault>
        ensures ok { OnOk result (session_in self.new ≡ session_of flow.now) }
        ensures shown { OnOk result (IsShown self.new) }
        ensures err { IfErr result (λ fault. fault ≡ Fault.Full) }
        ensures same { OnErr result (self.new ≡ self.old) }
    {
        match &flow.role {
            Role::Client(client) => self.save_client(client)?,
            Role::Server(server) => self.save_server(server),
        }
        self.mode = number_of_mode(flow.mode());
        self.status = letter_of(flow.status);
        self.has_left = flow.left;
        self.stage = number_of_stage(flow.stage);
        Ok(())
    }

    fn save_server(&mut self, server: &ServerFlow)
        ensures side { side_in self.new ≡ side_of (Role.Server server.now) }
        ensures first { self.new.first ≡ first_in (side_of (Role.Server server.now)) }
    {
        self.is_server = true;
        self.request = number_of_asked(server.request);
        self.place = number_of_place(server.place);
        self.is_quiet = server.quiet;
        self.first = server.first();
        self.count = server.taken;
    }

    fn save_client(&mut self, client: &ClientFlow) -> Result<(), Fault>
        ensures ok { OnOk result (side_in self.new ≡ side_of (Role.Client client.now)) }
        ensures first { OnOk result (self.new.first ≡ first_in (side_of (Role.Client client.now))) }
        ensures err { IfErr result (λ fault. fault ≡ Fault.Full) }
        ensures same { OnErr result (self.new ≡ self.old) }
    {
        let behind = client.rest.len();
        if behind > ROOM {
            return Err(Fault::Full);
        }
        write(&client.rest, &mut self.requests);
        self.is_server = false;
        self.behind = behind;
        self.request = number_of_asked(client.first);
        self.place = number_of_place(client.place);
        self.first = client.first();
        self.count = client.said;
        let early = numbers_of(client.early);
        self.early = early.kind;
        self.group = early.group;
        self.least = early.least;
        self.more = early.more;
        self.skips = early.skips;
        Ok(())
    }
}

// The flow of a client or of a server before its first message.
fn begun(is_server: bool) -> FixedFlow
    ensures { result ≡ begun is_server }
{
    FixedFlow {
        mode: 0,
        status: 0,
        has_left: false,
        is_server,
        first: 0,
        count: 0,
        stage: 0,
        place: 0,
        request: 0,
        early: 0,
        skips: false,
        is_quiet: true,
        group: 0,
        least: 0,
        more: 0,
        behind: 0,
        requests: [0; 1024],
    }
}

// What early Syncs make of the requests that wait, as numbers.
#[derive(Clone, Copy)]
struct EarlyNumbers {
    kind: u8,
    group: u64,
    least: u64,
    more: u64,
    skips: bool,
}

fn numbers_of(early: EarlySyncs) -> EarlyNumbers
    ensures { early_as result.kind result.group result.least result.more result.skips ≡ early }
{
    match early {
        EarlySyncs::Usual => EarlyNumbers {
            kind: 0,
            group: 0,
            least: 0,
            more: 0,
            skips: false,
        },
        EarlySyncs::InCopy(more) => EarlyNumbers {
            kind: 1,
            group: 0,
            least: 0,
            more,
            skips: false,
        },
        EarlySyncs::InGroup(group, least, more, skips) => EarlyNumbers {
            kind: 2,
            group,
            least,
            more,
            skips,
        },
    }
}

fn early_of(kind: u8, group: u64, least: u64, more: u64, skips: bool) -> EarlySyncs
    ensures { result ≡ early_as kind group least more skips }
{
    match kind {
        0 => EarlySyncs::Usual,
        1 => EarlySyncs::InCopy(more),
        _ => EarlySyncs::InGroup(group, least, more, skips),
    }
}

// The requests of these numbers.
fn queue_of(alloc: Global, numbers: &[u8]) -> Result<VecDeque<Request>, Fault>
    ensures ok { IfOk result (λ queue. queue.items ≡ map request_as numbers.now) }
    ensures err { IfErr result (λ fault. fault ≡ Fault.Full) }
{
    let mut queue = VecDeque::new(alloc);
    let mut i: usize = 0;
    while i < numbers.len() {
        if queue.push_back(request_of(numbers[i])).is_err() {
            return Err(Fault::Full);
        }
        i += 1;
    }
    Ok(queue)
}

// Writes the numbers of requests, for which there is room.
fn write(queue: &VecDeque<Request>, numbers: &mut [u8])
    requires { length queue.now.items ≤ length numbers.old }
    ensures { map request_as (take (length queue.now.items) numbers.new) ≡ queue.now.items }
{
    let mut i: usize = 0;
    while i < queue.len() {
        numbers[i] = number_of_request(queue[i]);
        i += 1;
    }
}
