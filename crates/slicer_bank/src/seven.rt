//! The seven samples that are kept for the windows to come.
ghost use Rattle.std.specs.Prelude.{◌≡◌, ◌+◌, ◌≤◌, ℤ, List, ◌++◌, length, take};
ghost use Rattle.slicer_bank.specs.Held.{last_seven};

/// Keeps the last seven of the samples up to the end of a block.
pub fn keep_last(recent: &mut [i16; 7], block: &[i16])
    ensures { (x : List ℤ) → recent.old ≡ last_seven x → recent.new ≡ last_seven (x ++ block.now) }
{
    if block.len() < 7 {
        let bridge = bridge(recent, block);
        recent.copy_from_slice(&bridge[block.len()..block.len() + 7]);
    } else {
        recent.copy_from_slice(&block[block.len() - 7..]);
    }
}

/// Seven samples and what follows them.
pub fn bridge(recent: &[i16; 7], first: &[i16]) -> [i16; 14]
    requires { length first.now ≤ 7 }
    ensures { take (7 + length first.now) result ≡ recent.now ++ first.now }
{
    let mut bridge = [0; 14];
    bridge[..7].copy_from_slice(recent);
    bridge[7..7 + first.len()].copy_from_slice(first);
    bridge
}
