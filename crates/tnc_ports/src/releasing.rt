//! The key of a live station: how it is made, and how it is released at the end of the run.
ghost use Rattle.std.specs.Prelude.{◌≡◌, ℕ, [], List, Option, Some, None};
ghost use Rattle.key_port.specs.KeyEvents.{KeyEvent};
ghost use Rattle.tnc_ports.specs.declared.serve_words.KeyWords.{KeyWords};
ghost use Rattle.tnc_ports.specs.SampledHeld.{KeyStands, ReleasesKey};

use crate::serve_words::KeyWords;
use key_port::{KeyPort, KeySide};
use std::net::Net;
use std::sync::Wait;
use tnc_base::Sink;

/// A key that has done nothing, if one is asked for.
pub(crate) fn key_of(words: Option<KeyWords>) -> Option<KeySide>
    ensures { KeyStands words result [] }
{
    match words {
        None => None,
        Some(words) => Some(KeySide::new(words.words, words.port)),
    }
}

/// Releases the key, if there is one.
pub(crate) fn release_key<R: Net + Wait, O: Sink, K: KeyPort<O>>(
    rt: &R,
    side: &mut Option<KeySide>,
    output: &O,
    key: &mut K,
)
    ensures { (words : Option KeyWords) (octets : ℕ) (keyed : List KeyEvent) → KeyStands words side.old keyed
        → ReleasesKey words octets (O.told output.now).written keyed side.new (K.told key.old) (K.told key.new) }
{
    if let Some(side) = side {
        side.release(rt, key, output);
    }
}
