//! What all 26 lanes tell in place of the eight, if they listen.

ghost use Rattle.std.specs.Prelude.{◌≡◌, ◌+◌, ◌<◌, ◌^◌, ℕ, ℤ, List, [], ◌++◌, length, IfOk, OnOk, IfSome, is_some};
ghost use Rattle.fx25_receiver.specs.Held.{Held as HeldEight, StandsFor as EightStandFor};
ghost use Rattle.fx25_receiver.specs.declared.heard.Heard.{Heard};
ghost use Rattle.sensitive_blocks.specs.Held.{StandsFor as AllStandFor};
ghost use Rattle.fx25_ring.specs.HeardInBlocks.{AreMergedBy};
ghost use Rattle.fx25_ring.specs.Held.{Tells};

use fx25_receiver::Heard;
use sensitive_blocks::SensitiveBlocksReceiver;
use std::alloc::Global;
use tnc_base::OutOfMemory;

/// All lanes, which have heard nothing, or none if these are not to listen.
pub(crate) fn all_of(
    alloc: Global,
    sensitive: bool,
) -> Result<Option<SensitiveBlocksReceiver>, OutOfMemory>
    ensures asked { IfOk result (λ all. is_some all ≡ sensitive) }
    ensures stand { IfOk result (λ all. IfSome all (λ lanes. AllStandFor lanes [] [])) }
    ensures position { IfOk result (λ all. IfSome all (λ lanes. lanes.follower.position ≡ 0)) }
{
    if sensitive {
        return Ok(Some(SensitiveBlocksReceiver::new(alloc)?));
    }
    Ok(None)
}

/// What is told of samples, of which the eight lanes heard these items: that, or what they settle of what all lanes hear.
pub(crate) fn tell(
    all: &mut Option<SensitiveBlocksReceiver>,
    samples: &[i16],
    heard: Vec<Heard>,
) -> Result<Vec<Heard>, OutOfMemory>
    requires room { IfSome all.old (λ lanes. lanes.follower.position + length samples.now < 2 ^ 48) }
    ensures told { IfOk result (λ told. (before after : HeldEight) (x : List ℤ) (given : List Heard)
        → (EightStandFor before x given → EightStandFor after (x ++ samples.now) (given ++ heard.items))
        → Tells before all.old x given → Tells after all.new (x ++ samples.now) (given ++ told.items)) }
    ensures position { (position : ℕ) → IfSome all.old (λ lanes. lanes.follower.position ≡ position)
        → OnOk result (IfSome all.new (λ lanes. lanes.follower.position ≡ position + length samples.now)) }
    ensures asked { is_some all.new ≡ is_some all.old }
{
    match all {
        Some(lanes) => lanes.block(samples),
        None => Ok(heard),
    }
}

/// What is left of the samples, which have ended: of the eight lanes nothing.
pub(crate) fn rest_of(
    alloc: Global,
    all: &mut Option<SensitiveBlocksReceiver>,
) -> Result<Vec<Heard>, OutOfMemory>
    requires room { IfSome all.old (λ lanes. lanes.follower.position < 2 ^ 48) }
    ensures rest { IfOk result (λ rest. (eight : HeldEight) (x : List ℤ) (given : List Heard)
        → Tells eight all.old x given → AreMergedBy (is_some all.old) x (given ++ rest.items)) }
    ensures asked { is_some all.new ≡ is_some all.old }
{
    match all {
        Some(lanes) => lanes.finish(),
        None => Ok(Vec::new(alloc)),
    }
}
