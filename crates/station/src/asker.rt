//! Hosts that want to be told when a frame of theirs has been sent.
ghost use Rattle.std.specs.Prelude.{◌≡◌, map};
ghost use Rattle.station.specs.Askers.{without_asker, without_askers};

/// A connection that is told, and the two octets by which it knows the frame.
#[derive(Clone, Copy, Debug)]
pub struct Asker {
    /// The connection.
    pub id: u32,
    /// The two octets.
    pub mark: [u8; 2],
}

/// The hosts that want to be told, without a connection.
pub(crate) fn remove_askers(askers: &mut Vec<Option<Asker>>, id: u32)
    ensures { askers.new.items ≡ without_askers id askers.old.items }
{
    for place in 0..askers.len() {
        let asker = without(askers[place], id);
        askers[place] = asker;
    }
}

/// The host that wants to be told, unless it is this connection.
fn without(asker: Option<Asker>, id: u32) -> Option<Asker>
    ensures { result ≡ without_asker id asker }
{
    match asker {
        Some(asker) if asker.id != id => Some(asker),
        _ => None,
    }
}
