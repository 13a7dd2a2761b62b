//! One send of what waits for a connection.
ghost use Rattle.std.specs.Prelude.{◌≡◌, ◌≢◌, ◌≤◌, ℕ, List, Some, [], ◌∷◌, ◌++◌, length, take, IfOk, OnErr, IsErrOf};
ghost use Rattle.tnc_base.specs.Faults.{HasRisen};
ghost use Rattle.host_ports.specs.Sockets.{Poll, Send};
ghost use Rattle.host_ports.specs.Waiting.{front_of, after_sending};

use crate::outgoing::Outgoing;
use crate::ports::Ports;
use std::alloc::Global;
use std::net::Net;
use thiserror::Error;
use tnc_base::{Failed, OutOfMemory};

/// Why an offer is not made, or fails.
#[derive(Clone, Copy, Debug, PartialEq, Eq, Error)]
pub enum OfferFault {
    /// The connection failed.
    #[error("the connection failed")]
    Failed,
    /// Want of memory.
    #[error("out of memory")]
    Memory,
}

impl From<Failed> for OfferFault {
    ghost use Rattle.host_ports.specs.declared.sending.OfferFault.TheVariants.{Failed};

    ghost from_gives = { λ _ fault. fault ≡ Failed };

    fn from(_: Failed) -> OfferFault {
        OfferFault::Failed
    }
}

impl From<OutOfMemory> for OfferFault {
    ghost use Rattle.host_ports.specs.declared.sending.OfferFault.TheVariants.{Memory};

    ghost from_gives = { λ _ fault. fault ≡ Memory };

    fn from(_: OutOfMemory) -> OfferFault {
        OfferFault::Memory
    }
}

/// Offers the connection the rest of the front piece, once, and no octet of the next piece.
pub fn offer<R: Net, N: Ports>(
    rt: &R,
    alloc: Global,
    ports: &mut N,
    id: u32,
    waiting: &mut Outgoing,
) -> Result<usize, OfferFault>
    ensures rest { IfOk result (λ count. (count ≤ length (front_of waiting.old))
        × (waiting.new ≡ after_sending count waiting.old)) }
    ensures kept { OnErr result (waiting.new ≡ waiting.old) }
    ensures sent { (before : List ℕ) → (N.told ports.old).sent id ≡ Some before
        → IfOk result (λ count. (N.told ports.new).sent id ≡ Some (before ++ take count (front_of waiting.old))) }
    ensures others { (other : ℕ) → other ≢ id → (N.told ports.new).sent other ≡ (N.told ports.old).sent other }
    ensures told { (polled : List Poll) (before : List Send) → (N.told ports.old).polls ≡ Some polled
        → (N.told ports.old).sends ≡ Some before → IfOk result (λ count. (N.told ports.new).sends ≡ Some (before ++ (record {
          id = id;
          polls = length polled;
          offered = length (front_of waiting.old);
          took = count;
        }) ∷ [])) }
    ensures refused { OnErr result (((N.told ports.new).sent id ≡ (N.told ports.old).sent id)
        × ((N.told ports.new).sends ≡ (N.told ports.old).sends)) }
    ensures listens { (N.told ports.new).listens ≡ (N.told ports.old).listens }
    ensures dials { (N.told ports.new).dials ≡ (N.told ports.old).dials }
    ensures polls { (N.told ports.new).polls ≡ (N.told ports.old).polls }
    ensures shut { (other : ℕ) → (N.told ports.new).is_shut other ≡ (N.told ports.old).is_shut other }
    ensures later { (N.told ports.old).faults ≤ (N.told ports.new).faults }
    ensures failed { IsErrOf result OfferFault.Failed → HasRisen (N.told ports.old).faults (N.told ports.new).faults }
{
    let count = send_front(rt, alloc, ports, id, waiting)?;
    waiting.advance(count);
    Ok(count)
}

/// Sends the rest of the front piece. The two parts are joined only when the ring ends inside the piece.
fn send_front<R: Net, N: Ports>(
    rt: &R,
    alloc: Global,
    ports: &mut N,
    id: u32,
    waiting: &Outgoing,
) -> Result<usize, OfferFault>
    ensures bound { IfOk result (λ count. count ≤ length (front_of waiting.now)) }
    ensures sent { (before : List ℕ) → (N.told ports.old).sent id ≡ Some before
        → IfOk result (λ count. (N.told ports.new).sent id ≡ Some (before ++ take count (front_of waiting.now))) }
    ensures others { (other : ℕ) → other ≢ id → (N.told ports.new).sent other ≡ (N.told ports.old).sent other }
    ensures told { (polled : List Poll) (before : List Send) → (N.told ports.old).polls ≡ Some polled
        → (N.told ports.old).sends ≡ Some before → IfOk result (λ count. (N.told ports.new).sends ≡ Some (before ++ (record {
          id = id;
          polls = length polled;
          offered = length (front_of waiting.now);
          took = count;
        }) ∷ [])) }
    ensures refused { OnErr result (((N.told ports.new).sent id ≡ (N.told ports.old).sent id)
        × ((N.told ports.new).sends ≡ (N.told ports.old).sends)) }
    ensures listens { (N.told ports.new).listens ≡ (N.told ports.old).listens }
    ensures dials { (N.told ports.new).dials ≡ (N.told ports.old).dials }
    ensures polls { (N.told ports.new).polls ≡ (N.told ports.old).polls }
    ensures shut { (other : ℕ) → (N.told ports.new).is_shut other ≡ (N.told ports.old).is_shut other }
    ensures later { (N.told ports.old).faults ≤ (N.told ports.new).faults }
    ensures failed { IsErrOf result OfferFault.Failed → HasRisen (N.told ports.old).faults (N.told ports.new).faults }
{
    let (first, second) = waiting.front();
    if second.is_empty() {
        return Ok(ports.send(rt, id, first)?);
    }
    let whole = joined(alloc, first, second)?;
    Ok(ports.send(rt, id, &whole)?)
}

fn joined(alloc: Global, first: &[u8], second: &[u8]) -> Result<Vec<u8>, OutOfMemory>
    ensures { IfOk result (λ whole. whole.items ≡ first.now ++ second.now) }
{
    let mut whole = first.to_vec(alloc)?;
    whole.extend_from_slice(second)?;
    Ok(whole)
}
