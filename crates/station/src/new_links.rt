//! Links that are made.
ghost use Rattle.std.specs.Prelude.{◌≡◌, ℕ, ◌<◌, true, count_by, is_some, Ok, IfOk, OnOk, OnErr, option_map};
ghost use Rattle.std.specs.List.{find};
ghost use Rattle.std.specs.Result.{IsErrOf};
ghost use Rattle.link_machine.specs.declared.fault.NewFault.{NewFault};
ghost use Rattle.station.specs.Held.{ids_in};
ghost use Rattle.station.specs.Links.{IsNewKey};
ghost use Rattle.ax25_frames.specs.declared.frame.Modulus.TheVariants.{Eight};
ghost use Rattle.station.specs.LinkRequests.{held_modulus};
ghost use Rattle.station.specs.TableSteps.{place_at};
ghost use Rattle.station.specs.NewLinks.{making, pid_or};
ghost use Rattle.station.specs.Registrations.{registrar};
ghost use Rattle.station.specs.StandsFor.{Shows};
ghost use Rattle.station.specs.Turn.{Out, Turn};

use crate::memory::Memory;
use crate::owned_link::OwnedLink;
use crate::parts::Parts;
use ax25_address::{Call, Path};
use link_machine::{Link, NewFault};
use tnc_base::OutOfMemory;

/// The PID of data that no layer 3 has.
pub(crate) const NO_LAYER_3: u8 = 0xf0;

/// The PID, or another if it is 0.
pub(crate) fn pid_or(other: u8, pid: u8) -> u8
    ensures { result ≡ pid_or other pid }
{
    if pid == 0 { other } else { pid }
}

impl Parts {
    /// The connection that has registered a call.
    pub(crate) fn registrar(&self, call: &Call) -> Option<u32>
        ensures { result ≡ registrar call.now self.now.registrations.items }
    {
        for registration in &self.registrations {
            if registration.call == *call {
                return Some(registration.id);
            }
        }
        None
    }

    /// Makes a link that is idle, and tells its key. The windows were found good when the station was made.
    pub(crate) fn make_link(
        &mut self,
        memory: &mut Memory,
        owner: u32,
        pid: u8,
        local: Call,
        remote: Call,
        path: Path,
    ) -> Result<u32, OutOfMemory>
        requires { count_by is_some self.old.links.places < 64 }
        ensures made { (out : Out) (turn : Turn) → Shows self.old out turn → IfOk result (λ key.
            IsNewKey key turn.now.links × Shows self.new out (making key owner pid local remote path turn)) }
        ensures modulus { IfOk result (λ key. held_modulus (place_at key self.new.links) ≡ Eight) }
        ensures ids { OnOk result (ids_in self.new ≡ ids_in self.old) }
        ensures wanted { OnErr result (memory.new.refused ≡ true) }
    {
        let machine = Link::new(memory.alloc(), self.parameters.get(), path);
        let machine = memory.took(of_fitting_windows(machine))?;
        Ok(
            self.links.insert(OwnedLink {
                local,
                remote,
                owner: Some(owner),
                pid,
                machine,
            }),
        )
    }
}

/// A link whose windows fit, unless memory was wanted.
fn of_fitting_windows(answer: Result<Link, NewFault>) -> Result<Link, OutOfMemory>
    requires { (window : ℕ) → ¬ IsErrOf answer (NewFault.BadWindow window) }
    ensures { IfOk result (λ link. answer ≡ Ok link) }
{
    match answer {
        Ok(link) => Ok(link),
        Err(NewFault::Memory) => Err(OutOfMemory),
        Err(NewFault::BadWindow { .. }) => unreachable!(),
    }
}
