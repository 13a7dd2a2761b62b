//! The octets of a host's connection as they come.

ghost use Rattle.std.specs.Prelude.{◌≡◌, ◌≢◌, ℕ, List, [], ◌∷◌, ◌++◌, ◌↔◌, Err, true};

use crate::beginning::Beginning;
use crate::fault::KissFault;
use crate::item::KissItem;
use crate::reader::KissIn;
use std::alloc::Global;
use std::marker::Model;

/// Reads the octets of a host's connection one by one: a stream of KISS, unless they begin as those of a program of the
/// web do.
#[derive(Drop)]
pub struct KissHostIn {
    beginning: Beginning,
    items: KissIn,
}

impl Model for KissHostIn {
    ghost use Rattle.kiss_port.specs.HeldHost.{HeldHost, HostStandsForSome};

    ghost Value = { HeldHost };

    ghost view = { λ k. record { beginning = k.beginning; piece = k.items } };

    ghost invariant = { λ k. HostStandsForSome (record { beginning = k.beginning; piece = k.items }) };
}

impl KissHostIn {
    ghost use Rattle.kiss_port.specs.declared.fault.KissFault.TheVariants.{WebRequest, Memory};
    ghost use Rattle.kiss_port.specs.HeldHost.{HostStandsFor, HostStandsForSome};
    ghost use Rattle.kiss_port.specs.WebRequests.{is_web_request, host_items, given};

    /// A reader to which no octet has come, which is as one right after a FEND. It takes memory from `alloc`.
    pub fn new(alloc: Global) -> Self
        ensures stands_for { HostStandsFor result [] }
    {
        KissHostIn {
            beginning: Beginning::new(),
            items: KissIn::new(alloc),
        }
    }

    /// Takes the next octet, and gives the item that ends with it. If memory is wanted and not given, the octet is not
    /// taken. From the octet on by which the connection is known as a program's of the web, no memory is wanted: each
    /// octet is answered by `WebRequest`.
    pub fn push(&mut self, octet: u8) -> Result<Option<KissItem>, KissFault>
        ensures stood { HostStandsForSome self.old }
        ensures stands_for { (stream : List ℕ) → HostStandsFor self.old stream → result ≢ Err Memory
            → HostStandsFor self.new (stream ++ octet ∷ []) }
        ensures item { (stream : List ℕ) → HostStandsFor self.old stream → result ≢ Err Memory
            → host_items (stream ++ octet ∷ []) ≡ host_items stream ++ given result }
        ensures web { (stream : List ℕ) → HostStandsFor self.old stream
            → result ≡ Err WebRequest ↔ is_web_request (stream ++ octet ∷ []) ≡ true }
        ensures untaken { result ≡ Err Memory → self.new ≡ self.old }
    {
        let beginning = self.beginning.with(octet);
        if beginning.is_web_request() {
            self.beginning = beginning;
            return Err(KissFault::WebRequest);
        }
        let item = self.items.push(octet)?;
        self.beginning = beginning;
        Ok(item)
    }

    /// Whether the connection is a program's of the web, as far as its octets have come.
    pub fn is_web_request(&self) -> bool
        ensures stands { HostStandsForSome self.now }
        ensures web { (stream : List ℕ) → HostStandsFor self.now stream → result ≡ is_web_request stream }
    {
        self.beginning.is_web_request()
    }
}
