//! The connections that are there, in the order in which they joined.
ghost use Rattle.std.specs.Prelude.{◌≡◌, ℕ, ◌<◌, List, None, Some, length, IfNone, IfSome, slice_set};
ghost use Rattle.std.specs.List.{list_any, slice_index_or};
ghost use Rattle.host_ports.specs.Hosts.{is_client_of, is_among, client_of, with_waiting};
ghost use Rattle.host_ports.specs.declared.client.Client.{Client};

use crate::client::Client;

/// Whether a connection is there.
pub(crate) fn is_there(id: u32, clients: &[Client]) -> bool
    ensures { result ≡ list_any (is_client_of id) clients.now }
{
    for client in clients {
        if client.id == id {
            return true;
        }
    }
    false
}

/// The place of a connection.
pub(crate) fn place_of(id: u32, clients: &[Client]) -> Option<usize>
    ensures nowhere { IfNone result (client_of id clients.now ≡ None) }
    ensures within { IfSome result (λ at. at < length clients.now) }
    ensures client { IfSome result (λ at. (d : Client) → client_of id clients.now ≡ Some (slice_index_or clients.now at d)) }
    ensures id { IfSome result (λ at. (d : Client) → (slice_index_or clients.now at d).id ≡ id) }
    ensures waiting { IfSome result (λ at. (waiting : List (List ℕ)) (d : Client) → with_waiting id waiting clients.now
        ≡ slice_set clients.now at (record (slice_index_or clients.now at d) { waiting = waiting })) }
{
    for (at, client) in clients.iter().enumerate() {
        if client.id == id {
            return Some(at);
        }
    }
    None
}

/// Whether an id is one of these.
pub(crate) fn is_among(id: u32, ids: &[u32]) -> bool
    ensures { result ≡ is_among id ids.now }
{
    for other in ids {
        if *other == id {
            return true;
        }
    }
    false
}
