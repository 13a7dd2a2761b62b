//! What the octets of a connection say.
ghost use Rattle.std.specs.Prelude.{◌≡◌, ◌++◌, ℕ, List, [], ◌∷◌, IfOk, OnOk, true, OnErr};
ghost use Rattle.std.specs.Option.{option_to_list};
ghost use Rattle.kiss_port.specs.HeldHost.{HostStandsFor};
ghost use Rattle.kiss_port.specs.WebRequests.{host_items};
ghost use Rattle.station.specs.HeldReading.{Says};
ghost use Rattle.station.specs.StandsFor.{Reads};
ghost use Rattle.station.specs.declared.host_event.PortKind.{PortKind};

use crate::connection::Reader;
use crate::memory::Memory;
use agwpe_port::{AgwMessage, read_messages};
use kiss_port::{KissFault, KissHostIn, KissItem};
use tnc_base::OutOfMemory;

/// What octets say.
#[derive(Drop)]
pub enum Said {
    /// Items of KISS, and whether the connection is a request of the web.
    Items(Vec<KissItem>, bool),
    /// Messages of AGWPE, and whether a header told too long a body.
    Messages(Vec<AgwMessage>, bool),
}

impl Reader {
    /// Takes octets, and gives what ends in them.
    pub(crate) fn read(&mut self, memory: &mut Memory, octets: &[u8]) -> Result<Said, OutOfMemory>
        ensures stands_for { (kind : PortKind) (stream : List ℕ) → Reads self.old kind stream
            → OnOk result (Reads self.new kind (stream ++ octets.now)) }
        ensures says { (kind : PortKind) (stream : List ℕ) → Reads self.old kind stream
            → IfOk result (λ said. Says kind stream octets.now said) }
        ensures wanted { OnErr result (memory.new.refused ≡ true) }
    {
        match self {
            Reader::KissReader(reader) => {
                let items = read_items(memory, reader, octets)?;
                let web = reader.is_web_request();
                Ok(Said::Items(items, web))
            }
            Reader::AgwReader(reader) => {
                let messages = read_messages(memory.alloc(), reader, octets);
                let messages = memory.took(messages)?;
                let failed = reader.failed().is_some();
                Ok(Said::Messages(messages, failed))
            }
        }
    }
}

/// The items that end in the octets. A request of the web has none.
fn read_items(
    memory: &mut Memory,
    reader: &mut KissHostIn,
    octets: &[u8],
) -> Result<Vec<KissItem>, OutOfMemory>
    ensures stands_for { (stream : List ℕ) → HostStandsFor reader.old stream
        → OnOk result (HostStandsFor reader.new (stream ++ octets.now)) }
    ensures items { (stream : List ℕ) → HostStandsFor reader.old stream
        → IfOk result (λ items. host_items (stream ++ octets.now) ≡ host_items stream ++ items.items) }
    ensures wanted { OnErr result (memory.new.refused ≡ true) }
{
    let mut items = Vec::new(memory.alloc());
    for octet in octets {
        let item = next_item(memory, reader, *octet)?;
        keep(memory, &mut items, item)?;
    }
    Ok(items)
}

/// The item that an octet ends.
fn next_item(
    memory: &mut Memory,
    reader: &mut KissHostIn,
    octet: u8,
) -> Result<Option<KissItem>, OutOfMemory>
    ensures stands_for { (stream : List ℕ) → HostStandsFor reader.old stream
        → OnOk result (HostStandsFor reader.new (stream ++ octet ∷ [])) }
    ensures item { (stream : List ℕ) → HostStandsFor reader.old stream → IfOk result (λ item.
        host_items (stream ++ octet ∷ []) ≡ host_items stream ++ option_to_list item) }
    ensures wanted { OnErr result (memory.new.refused ≡ true) }
{
    match reader.push(octet) {
        Ok(item) => Ok(item),
        Err(KissFault::WebRequest) => Ok(None),
        Err(KissFault::Memory) => memory.took(Err(OutOfMemory)),
    }
}

/// Puts an item after the others, if there is one.
fn keep(
    memory: &mut Memory,
    items: &mut Vec<KissItem>,
    item: Option<KissItem>,
) -> Result<(), OutOfMemory>
    ensures kept { OnOk result (items.new.items ≡ items.old.items ++ option_to_list item) }
    ensures wanted { OnErr result (memory.new.refused ≡ true) }
{
    match item {
        Some(item) => { memory.push(items, item) }
        None => Ok(()),
    }
}
