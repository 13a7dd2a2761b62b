//! Room for what a link does in one event, which is taken before anything changes.
ghost use Rattle.std.specs.Prelude.{◌≡◌, ℕ, ◌+◌, ◌≤◌, [], ◌∷◌, ◌++◌, IfOk, vec_len, vec_capacity};
ghost use Rattle.link_machine.specs.Room.{frames_left, told_left, HasRoom, Uses};

use crate::acts::{Acts, SentFrame, Told};
use std::alloc::Global;
use tnc_base::OutOfMemory;

/// The frames and told items of an event so far, and room for more.
#[derive(Drop)]
pub(crate) struct Room {
    pub(crate) frames: Vec<SentFrame>,
    pub(crate) told: Vec<Told>,
}

impl Room {
    /// Room for so many frames and told items.
    pub(crate) fn new(alloc: Global, frames: usize, told: usize) -> Result<Room, OutOfMemory>
        ensures { IfOk result (HasRoom frames told) }
    {
        Ok(Room {
            frames: Vec::with_capacity(alloc, frames)?,
            told: Vec::with_capacity(alloc, told)?,
        })
    }

    /// Sends a frame.
    pub(crate) fn send(&mut self, frame: SentFrame)
        requires { 1 ≤ frames_left self.old }
        ensures frames { self.new.frames.items ≡ self.old.frames.items ++ frame ∷ [] }
        ensures told { self.new.told ≡ self.old.told }
        ensures uses { Uses self.old self.new 1 0 }
    {
        let _ = self.frames.push(frame);
    }

    /// Tells the layer above.
    pub(crate) fn tell(&mut self, item: Told)
        requires { 1 ≤ told_left self.old }
        ensures told { self.new.told.items ≡ self.old.told.items ++ item ∷ [] }
        ensures frames { self.new.frames ≡ self.old.frames }
        ensures uses { Uses self.old self.new 0 1 }
    {
        let _ = self.told.push(item);
    }

    /// What was done.
    pub(crate) fn finish(self) -> Acts
        ensures frames { result.frames ≡ self.frames.items }
        ensures told { result.told ≡ self.told.items }
    {
        Acts {
            frames: self.frames,
            told: self.told,
        }
    }
}
