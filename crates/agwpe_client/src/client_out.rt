//! What an octet of the host gives.
ghost use Rattle.std.specs.Prelude.{◌≡◌, [], IfOk, unwrap_or};

use std::alloc::Global;
use tnc_base::{Octets, OutOfMemory};

/// What an octet of the host gives.
#[derive(Debug, Drop)]
pub struct ClientOut {
    /// What is sent to the host.
    pub send: Octets,
    /// What the remote station sent.
    pub print: Octets,
}

impl ClientOut {
    /// Nothing to send and nothing to print.
    pub(crate) fn nothing(alloc: Global) -> Result<ClientOut, OutOfMemory>
        ensures { IfOk result (λ out. out ≡ record { send = []; print = [] }) }
    {
        Ok(ClientOut {
            send: Octets::from_slice(alloc, &[])?,
            print: Octets::from_slice(alloc, &[])?,
        })
    }

    /// The same with these octets to send, if there are any.
    pub(crate) fn with_send(self, send: Option<Octets>) -> ClientOut
        ensures { result ≡ record self { send = unwrap_or send self.send } }
    {
        match send {
            Some(send) => ClientOut {
                send,
                print: self.print,
            },
            None => self,
        }
    }
}
