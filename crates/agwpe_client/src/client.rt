//! A call as the octets of its host come.
ghost use Rattle.std.specs.Prelude.{◌≡◌, ◌≢◌, ◌≤◌, ℕ, List, [], ◌∷◌, ◌++◌, length, IfOk, Ok, Err, MatchResult, IsTrue};
ghost use Rattle.std.specs.Prelude.{◌↔◌};
ghost use Rattle.agwpe_port.specs.CallField.{call_field};
ghost use Rattle.agwpe_client.specs.HeldCall.{opening_octets, farewell_octets};

use crate::call_state::CallState;
use crate::client_out::ClientOut;
use crate::fault::ClientFault;
use crate::messages::{connect_message, disconnect_message, register_message, text_octets};
use crate::step::{Step, step_of};
use agwpe_port::{AgwFault, AgwIn, AgwMessage, call_text};
use arrayvec::ArrayVec;
use ax25_address::Call;
use std::alloc::Global;
use std::marker::Model;
use tnc_base::{Octets, OutOfMemory};

/// One call as a client of a host. What it sends next is made ahead, so that an octet that was taken wants no memory.
#[derive(Drop)]
pub struct Client {
    alloc: Global,
    reader: AgwIn,
    own: [u8; 10],
    remote: [u8; 10],
    state: CallState,
    connect: Option<Octets>,
    opening: Option<Octets>,
    farewell: Option<Octets>,
    wanted: usize,
}

impl Model for Client {
    ghost use Rattle.agwpe_client.specs.HeldCall.{HeldCall};

    ghost Value = { HeldCall };

    ghost view = { λ c. record {
      reader = c.reader;
      own = c.own;
      remote = c.remote;
      state = c.state;
      connect = c.connect;
      opening = c.opening;
      farewell = c.farewell;
      wanted = c.wanted;
    } };
}

impl Client {
    ghost use Rattle.agwpe_client.specs.declared.call_state.CallState.TheVariants.{Done};
    ghost use Rattle.agwpe_client.specs.declared.fault.ClientFault.TheVariants.{Memory};
    ghost use Rattle.agwpe_client.specs.CallRun.{CallPlan, GoesOn, IsFault, is_over, state_after, sent_after};
    ghost use Rattle.agwpe_client.specs.CallRun.{printed_after, sent_by, printed_by};
    ghost use Rattle.agwpe_client.specs.CallRun.{call_plan};
    ghost use Rattle.agwpe_client.specs.CallSteps.{step_of};
    ghost use Rattle.agwpe_client.specs.HeldCall.{StandsFor, kept_after, given_by, no_out};
    ghost use Rattle.agwpe_client.specs.declared.step.Step.TheVariants.{Print};

    /// A call from `own` to `remote`, by way of the repeaters, and the message that registers `own`, which is to be
    /// sent. When the call stands, the text is sent, and after `expect` printed octets the caller disconnects.
    pub fn new(
        alloc: Global,
        own: Call,
        remote: Call,
        via: ArrayVec<Call, 8>,
        text: Octets,
        expect: u32,
    ) -> Result<(Client, Octets), OutOfMemory>
        ensures stands_for { IfOk result (λ made. StandsFor made.0 (call_plan own remote via.items text expect) []) }
        ensures sent { IfOk result (λ made. made.1 ≡ sent_after (call_plan own remote via.items text expect) []) }
    {
        let client = Client {
            alloc,
            reader: AgwIn::new(alloc),
            own: call_text(&own),
            remote: call_text(&remote),
            state: CallState::Asking,
            connect: Some(connect_message(alloc, &own, &remote, via.as_slice())?),
            opening: Some(opening(alloc, &own, &remote, text.as_slice(), expect)?),
            farewell: farewell(alloc, &own, &remote, expect)?,
            wanted: expect as usize,
        };
        Ok((client, register_message(alloc, &own)?))
    }

    /// Takes the next octet of the host, and gives what is sent to the host and printed by it. If memory is wanted and
    /// not given, the octet is not taken.
    pub fn push(&mut self, octet: u8) -> Result<ClientOut, ClientFault>
        ensures stands_for { (plan : CallPlan) (stream : List ℕ) → StandsFor self.old plan stream
            → result ≢ Err Memory → StandsFor self.new plan (stream ++ octet ∷ []) }
        ensures sent { (plan : CallPlan) (stream : List ℕ) → StandsFor self.old plan stream → result ≢ Err Memory
            → sent_after plan (stream ++ octet ∷ []) ≡ sent_after plan stream ++ sent_by result }
        ensures printed { (plan : CallPlan) (stream : List ℕ) → StandsFor self.old plan stream → result ≢ Err Memory
            → printed_after plan (stream ++ octet ∷ []) ≡ printed_after plan stream ++ printed_by result }
        ensures fault { (plan : CallPlan) (stream : List ℕ) → StandsFor self.old plan stream
            → MatchResult result (λ _. GoesOn plan stream octet) (IsFault plan stream octet) }
        ensures untaken { result ≡ Err Memory → self.new ≡ self.old }
    {
        if self.is_over() {
            return Err(ClientFault::Over);
        }
        let empty = ClientOut::nothing(self.alloc)?;
        match self.reader.push(octet) {
            Ok(None) => Ok(empty),
            Ok(Some(message)) => self.take(message, empty),
            Err(AgwFault::Memory) => Err(ClientFault::Memory),
            Err(AgwFault::BadLength { len }) => Err(self.give_up(len)),
            Err(AgwFault::Failed { len }) => Err(self.give_up(len)),
        }
    }

    /// True if the call was made and has ended.
    pub fn done(&self) -> bool
        ensures { (plan : CallPlan) (stream : List ℕ) → StandsFor self.now plan stream
            → IsTrue result ↔ (state_after plan stream ≡ Done) }
    {
        matches!(self.state, CallState::Done)
    }

    // Whether the call is over, in whatever way.
    fn is_over(&self) -> bool
        ensures { result ≡ is_over self.now.state }
    {
        match self.state {
            CallState::Asking => false,
            CallState::Calling => false,
            CallState::Up => false,
            CallState::Done => true,
            CallState::Refused => true,
            CallState::Broken { .. } => true,
        }
    }

    // The host told too long a body.
    fn give_up(&mut self, len: u32) -> ClientFault
        ensures kept { self.new ≡ record self.old { state = CallState.Broken len } }
        ensures fault { result ≡ ClientFault.Broken len }
    {
        self.state = CallState::Broken { len };
        ClientFault::Broken { len }
    }

    // Takes a message of the host.
    fn take(&mut self, message: AgwMessage, empty: ClientOut) -> Result<ClientOut, ClientFault>
        requires { empty ≡ no_out }
        ensures kept { let step = step_of self.old.own self.old.remote self.old.state message in
            self.new ≡ kept_after step message.body self.old }
        ensures given { let step = step_of self.old.own self.old.remote self.old.state message in
            result ≡ given_by step message.body self.old }
    {
        let step = step_of(&self.own, &self.remote, self.state, &message);
        self.follow(step, message.body, empty)
    }

    // What a message with this body makes of the call.
    fn follow(
        &mut self,
        step: Step,
        body: Octets,
        empty: ClientOut,
    ) -> Result<ClientOut, ClientFault>
        requires { empty ≡ no_out }
        ensures kept { self.new ≡ kept_after step body self.old }
        ensures given { result ≡ given_by step body self.old }
    {
        match step {
            Step::Ignore => Ok(empty),
            Step::Connect => {
                self.state = CallState::Calling;
                Ok(empty.with_send(self.connect.take()))
            }
            Step::Talk => {
                self.state = CallState::Up;
                Ok(empty.with_send(self.opening.take()))
            }
            Step::Print => Ok(self.print(body, empty)),
            Step::End => {
                self.state = CallState::Done;
                Ok(empty)
            }
            Step::Refuse => {
                self.state = CallState::Refused;
                Err(ClientFault::Refused)
            }
        }
    }

    // Prints the body of a message, and disconnects when enough is printed.
    fn print(&mut self, body: Octets, empty: ClientOut) -> ClientOut
        requires { empty ≡ no_out }
        ensures kept { self.new ≡ kept_after Print body self.old }
        ensures given { Ok result ≡ given_by Print body self.old }
    {
        self.wanted = self.wanted.saturating_sub(body.len());
        let printed = ClientOut {
            send: empty.send,
            print: body,
        };
        if self.wanted > 0 {
            return printed;
        }
        printed.with_send(self.farewell.take())
    }
}

// What is sent when the call stands: the text, and d if no octet is waited for.
fn opening(
    alloc: Global,
    own: &Call,
    remote: &Call,
    text: &[u8],
    expect: u32,
) -> Result<Octets, OutOfMemory>
    ensures { IfOk result (λ octets. octets ≡ opening_octets own.now remote.now text.now expect) }
{
    let mut octets = text_octets(alloc, own, remote, text)?;
    if expect == 0 {
        let disconnect = disconnect_message(alloc, own, remote)?;
        octets.extend_from_slice(disconnect.as_slice())?;
    }
    Octets::from_slice(alloc, &octets)
}

// The d that is sent when enough is printed, if any octet is waited for.
fn farewell(
    alloc: Global,
    own: &Call,
    remote: &Call,
    expect: u32,
) -> Result<Option<Octets>, OutOfMemory>
    ensures { IfOk result (λ octets. octets ≡ farewell_octets own.now remote.now expect) }
{
    if expect == 0 {
        return Ok(None);
    }
    let disconnect = disconnect_message(alloc, own, remote)?;
    Ok(Some(disconnect))
}
