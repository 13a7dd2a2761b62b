//! A call under way: what the client has sent, and how much of it the host took.
ghost use Rattle.std.specs.Prelude.{◌≡◌, ◌≢◌, ◌≤◌, ◌-◌, ◌++◌, ◌∷◌, [], ℕ, List, Some, length, take, drop, IfOk, OnOk};
ghost use Rattle.std.specs.Prelude.{OnErr};
ghost use Rattle.std.specs.Prelude.{MatchOption, IfSome};
ghost use Rattle.tnc_base.specs.Faults.{HasRisen};
ghost use Rattle.station.specs.declared.host_event.HostEvent.{HostEvent};
ghost use Rattle.host_ports.specs.Sockets.{Poll, Send};
ghost use Rattle.agwpe_client.specs.CallRun.{CallPlan, state_after};
ghost use Rattle.agwpe_client.specs.HeldCall.{StandsFor};
ghost use Rattle.agwpe_client.specs.declared.call_state.CallState.TheVariants.{Done as DoneState};
ghost use Rattle.tnc_call.specs.CallEnding.{plan_of};
ghost use Rattle.tnc_call.specs.CallInput.{IsTalkEnd};
ghost use Rattle.tnc_call.specs.CallTrace.{event_octets, octets_of, sends_of};
ghost use Rattle.host_ports.specs.Sockets.{PortsTold};
ghost use Rattle.tnc_call.specs.CallTrace.{CallTrace};
ghost use Rattle.tnc_call.specs.HeldTalk.{HasBegun, GoesOn, IsAhead, Stops, StopsBy, IsRunning, HasOffered, TurnsOn};
ghost use Rattle.tnc_call.specs.HeldTalk.{HasStopped};

use crate::call_end::CallEnd;
use crate::call_words::CallWords;
use crate::printing::print;
use agwpe_client::{Client, ClientFault, ClientOut};
use host_ports::{PollFault, Ports};
use station::HostEvent;
use std::alloc::Global;
use std::net::Net;
use tnc_base::{Failed, Octets, OutOfMemory, Sink};

/// How long a poll waits, in milliseconds.
const WAIT_MS: u32 = 100;

/// A call under way.
#[derive(Drop)]
pub(crate) struct Talk {
    alloc: Global,
    client: Client,
    /// All that the client has sent.
    sent: Vec<u8>,
    /// How many octets of it the host took.
    taken: usize,
    /// How many octets were printed.
    got: usize,
}

impl Talk {
    /// A call that has not begun: the registration waits to be sent.
    pub(crate) fn new(alloc: Global, words: CallWords, text: &[u8]) -> Result<Talk, OutOfMemory>
        ensures begun { IfOk result (HasBegun (plan_of words text.now)) }
        ensures within { IfOk result (λ talk. talk.taken ≤ length talk.sent.items) }
    {
        let text = Octets::from_slice(alloc, text)?;
        let (client, register) = Client::new(
            alloc,
            words.own,
            words.remote,
            words.via,
            text,
            words.expect,
        )?;
        Ok(Talk {
            alloc,
            client,
            sent: register.as_slice().to_vec(alloc)?,
            taken: 0,
            got: 0,
        })
    }

    /// One turn: the host is offered what waits and polled once, and what came of it is taken. Answers how the call
    /// ends, if it does.
    pub(crate) fn turn<R: Net, O: Sink, N: Ports>(
        &mut self,
        rt: &R,
        id: u32,
        output: &mut O,
        ports: &mut N,
    ) -> Option<CallEnd>
        requires within { self.old.taken ≤ length self.old.sent.items }
        ensures turned { (plan : CallPlan) (before : List ℕ) (start : PortsTold) (trace : CallTrace)
            → IsRunning self.old plan id before (O.told output.old).written start (N.told ports.old) trace
            → MatchOption result (TurnsOn self.new plan id before (O.told output.new).written start (N.told ports.new)
            (length trace.polls))
            (HasStopped plan id before (O.told output.new).written start (N.told ports.new)
            (length trace.polls)) }
        ensures within { self.new.taken ≤ length self.new.sent.items }
        ensures only { IfSome result IsTalkEnd }
        ensures write { result ≡ Some CallEnd.WriteFault
            → HasRisen (O.told output.old).faults (O.told output.new).faults }
        ensures faultless { result ≢ Some CallEnd.WriteFault → (O.told output.new).faults ≡ (O.told output.old).faults }
    {
        match self.offer(rt, id, ports) {
            Ok(()) => self.hear(rt, id, output, ports),
            Err(Failed) => Some(CallEnd::HostLost),
        }
    }

    /// Polls once, and takes what came. A poll that fails counts as no events.
    fn hear<R: Net, O: Sink, N: Ports>(
        &mut self,
        rt: &R,
        id: u32,
        output: &mut O,
        ports: &mut N,
    ) -> Option<CallEnd>
        requires within { self.old.taken ≤ length self.old.sent.items }
        ensures heard { (plan : CallPlan) (before : List ℕ) (start : PortsTold) (trace : CallTrace)
            → HasOffered self.old plan id before (O.told output.old).written start (N.told ports.old) trace
            → MatchOption result (TurnsOn self.new plan id before (O.told output.new).written start (N.told ports.new)
            (length trace.polls))
            (HasStopped plan id before (O.told output.new).written start (N.told ports.new)
            (length trace.polls)) }
        ensures within { self.new.taken ≤ length self.new.sent.items }
        ensures only { IfSome result IsTalkEnd }
        ensures write { result ≡ Some CallEnd.WriteFault
            → HasRisen (O.told output.old).faults (O.told output.new).faults }
        ensures faultless { result ≢ Some CallEnd.WriteFault → (O.told output.new).faults ≡ (O.told output.old).faults }
    {
        match ports.poll(rt, WAIT_MS, &[]) {
            Ok(events) => self.take_all(id, &events, output),
            Err(PollFault::Failed) => None,
            Err(PollFault::Memory) => Some(CallEnd::Memory),
        }
    }

    /// Offers the host what waits for it, if anything does.
    fn offer<R: Net, N: Ports>(&mut self, rt: &R, id: u32, ports: &mut N) -> Result<(), Failed>
        requires within { self.old.taken ≤ length self.old.sent.items }
        ensures kept { self.new ≡ record self.old { taken = self.new.taken } }
        ensures failed { OnErr result (self.new.taken ≡ self.old.taken) }
        ensures taken { self.old.taken ≤ self.new.taken }
        ensures within { self.new.taken ≤ length self.old.sent.items }
        ensures sends { (polled : List Poll) (before : List Send) → (N.told ports.old).polls ≡ Some polled
            → (N.told ports.old).sends ≡ Some before → OnOk result ((N.told ports.new).sends ≡ Some (before ++ sends_of id
            (length polled) (length self.old.sent.items - self.old.taken) (self.new.taken - self.old.taken))) }
        ensures sent { (before : List ℕ) → (N.told ports.old).sent id ≡ Some before
            → OnOk result ((N.told ports.new).sent id ≡ Some (before
            ++ take (self.new.taken - self.old.taken) (drop self.old.taken self.old.sent.items))) }
        ensures refused { OnErr result (((other : ℕ) → (N.told ports.new).sent other ≡ (N.told ports.old).sent other)
            × ((N.told ports.new).sends ≡ (N.told ports.old).sends) × (self.old.taken ≢ length self.old.sent.items)) }
        ensures others { (other : ℕ) → other ≢ id → (N.told ports.new).sent other ≡ (N.told ports.old).sent other }
        ensures listens { (N.told ports.new).listens ≡ (N.told ports.old).listens }
        ensures dials { (N.told ports.new).dials ≡ (N.told ports.old).dials }
        ensures polls { (N.told ports.new).polls ≡ (N.told ports.old).polls }
        ensures shut { (other : ℕ) → (N.told ports.new).is_shut other ≡ (N.told ports.old).is_shut other }
        ensures later { (N.told ports.old).faults ≤ (N.told ports.new).faults }
        ensures rose { OnErr result (HasRisen (N.told ports.old).faults (N.told ports.new).faults) }
    {
        if self.taken == self.sent.len() {
            return Ok(());
        }
        let count = ports.send(rt, id, &self.sent[self.taken..])?;
        self.taken += count;
        Ok(())
    }

    /// Takes the events of a poll in order, up to the end of the call.
    fn take_all<O: Sink>(
        &mut self,
        id: u32,
        events: &[HostEvent],
        output: &mut O,
    ) -> Option<CallEnd>
        requires within { self.old.taken ≤ length self.old.sent.items }
        ensures taken { (plan : CallPlan) (host before : List ℕ)
            → GoesOn self.old plan host before (O.told output.old).written
            → MatchOption result
            (GoesOn self.new plan (host ++ octets_of id events.now) before (O.told output.new).written)
            (StopsBy plan id host events.now before (O.told output.new).written) }
        ensures kept { self.new.taken ≡ self.old.taken }
        ensures within { self.new.taken ≤ length self.new.sent.items }
        ensures only { IfSome result IsTalkEnd }
        ensures write { result ≡ Some CallEnd.WriteFault
            → HasRisen (O.told output.old).faults (O.told output.new).faults }
        ensures faultless { result ≢ Some CallEnd.WriteFault → (O.told output.new).faults ≡ (O.told output.old).faults }
    {
        for event in events {
            let end = self.take(id, event, output);
            if end.is_some() {
                return end;
            }
        }
        None
    }

    /// Takes an event. One of another connection is passed over.
    fn take<O: Sink>(&mut self, id: u32, event: &HostEvent, output: &mut O) -> Option<CallEnd>
        requires within { self.old.taken ≤ length self.old.sent.items }
        ensures taken { (plan : CallPlan) (host before : List ℕ)
            → GoesOn self.old plan host before (O.told output.old).written
            → MatchOption result
            (GoesOn self.new plan (host ++ event_octets id event.now) before (O.told output.new).written)
            (StopsBy plan id host (event.now ∷ []) before (O.told output.new).written) }
        ensures kept { self.new.taken ≡ self.old.taken }
        ensures within { self.new.taken ≤ length self.new.sent.items }
        ensures only { IfSome result IsTalkEnd }
        ensures write { result ≡ Some CallEnd.WriteFault
            → HasRisen (O.told output.old).faults (O.told output.new).faults }
        ensures faultless { result ≢ Some CallEnd.WriteFault → (O.told output.new).faults ≡ (O.told output.old).faults }
    {
        match event {
            HostEvent::Joined { .. } => None,
            HostEvent::Bytes { id: from, octets } => {
                if *from != id {
                    return None;
                }
                self.take_octets(octets.as_slice(), output)
            }
            HostEvent::Left { id: from } => {
                if *from != id {
                    return None;
                }
                Some(CallEnd::HostLost)
            }
        }
    }

    /// Takes octets of the host in order, up to the end of the call.
    fn take_octets<O: Sink>(&mut self, octets: &[u8], output: &mut O) -> Option<CallEnd>
        requires within { self.old.taken ≤ length self.old.sent.items }
        ensures taken { (plan : CallPlan) (host before : List ℕ)
            → GoesOn self.old plan host before (O.told output.old).written
            → MatchOption result (GoesOn self.new plan (host ++ octets.now) before (O.told output.new).written)
            (Stops plan (host ++ octets.now) before (O.told output.new).written) }
        ensures kept { self.new.taken ≡ self.old.taken }
        ensures within { self.new.taken ≤ length self.new.sent.items }
        ensures only { IfSome result IsTalkEnd }
        ensures write { result ≡ Some CallEnd.WriteFault
            → HasRisen (O.told output.old).faults (O.told output.new).faults }
        ensures faultless { result ≢ Some CallEnd.WriteFault → (O.told output.new).faults ≡ (O.told output.old).faults }
    {
        for octet in octets {
            let end = self.take_octet(*octet, output);
            if end.is_some() {
                return end;
            }
        }
        None
    }

    /// Takes an octet of the host. Octets after the end of the call are passed over.
    fn take_octet<O: Sink>(&mut self, octet: u8, output: &mut O) -> Option<CallEnd>
        requires within { self.old.taken ≤ length self.old.sent.items }
        ensures taken { (plan : CallPlan) (host before : List ℕ)
            → GoesOn self.old plan host before (O.told output.old).written
            → MatchOption result (GoesOn self.new plan (host ++ octet ∷ []) before (O.told output.new).written)
            (Stops plan (host ++ octet ∷ []) before (O.told output.new).written) }
        ensures kept { self.new.taken ≡ self.old.taken }
        ensures within { self.new.taken ≤ length self.new.sent.items }
        ensures only { IfSome result IsTalkEnd }
        ensures write { result ≡ Some CallEnd.WriteFault
            → HasRisen (O.told output.old).faults (O.told output.new).faults }
        ensures faultless { result ≢ Some CallEnd.WriteFault → (O.told output.new).faults ≡ (O.told output.old).faults }
    {
        match self.client.push(octet) {
            Ok(out) => self.follow(out, output),
            Err(ClientFault::Refused) => Some(CallEnd::Refused),
            Err(ClientFault::Broken { len }) => Some(CallEnd::Broken { len }),
            Err(ClientFault::Over) => None,
            Err(ClientFault::Memory) => Some(CallEnd::Memory),
        }
    }

    /// What an octet gave: it waits to be sent, or is printed.
    fn follow<O: Sink>(&mut self, out: ClientOut, output: &mut O) -> Option<CallEnd>
        requires within { self.old.taken ≤ length self.old.sent.items }
        ensures taken { (plan : CallPlan) (host before : List ℕ)
            → IsAhead self.old out plan host before (O.told output.old).written
            → MatchOption result (GoesOn self.new plan host before (O.told output.new).written)
            (Stops plan host before (O.told output.new).written) }
        ensures kept { self.new.taken ≡ self.old.taken }
        ensures within { self.new.taken ≤ length self.new.sent.items }
        ensures only { IfSome result IsTalkEnd }
        ensures write { result ≡ Some CallEnd.WriteFault
            → HasRisen (O.told output.old).faults (O.told output.new).faults }
        ensures faultless { result ≢ Some CallEnd.WriteFault → (O.told output.new).faults ≡ (O.told output.old).faults }
    {
        let Ok(()) = self.sent.extend_from_slice(out.send.as_slice()) else {
            return Some(CallEnd::Memory);
        };
        match print(output, out.print.as_slice()) {
            Ok(()) => {
                self.got = self.got.saturating_add(out.print.len());
                self.end_if_done()
            }
            Err(Failed) => Some(CallEnd::WriteFault),
        }
    }

    /// The end of a call that was made and has ended.
    fn end_if_done(&self) -> Option<CallEnd>
        ensures done { (plan : CallPlan) (host : List ℕ) → StandsFor self.now.client plan host
            → MatchOption result (state_after plan host ≢ DoneState)
            (λ end. (end ≡ CallEnd.Done self.now.got) × (state_after plan host ≡ DoneState)) }
        ensures only { IfSome result IsTalkEnd }
        ensures no_write { result ≢ Some CallEnd.WriteFault }
    {
        if self.client.done() {
            return Some(CallEnd::Done { got: self.got });
        }
        None
    }
}
