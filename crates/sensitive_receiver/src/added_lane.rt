//! Whether what an added lane hears is reported.

ghost use Rattle.std.specs.Prelude.{◌≡◌, true};
ghost use Rattle.sensitive_receiver.specs.AddedCandidates.{HasPath};

use ax25_address::read_path;

/// Whether octets begin with a path.
pub(crate) fn has_path(octets: &[u8]) -> bool
    ensures has { result ≡ true → HasPath octets.now }
    ensures lacks { HasPath octets.now → result ≡ true }
{
    read_path(octets).is_ok()
}
