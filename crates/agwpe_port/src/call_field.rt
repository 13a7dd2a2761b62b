//! A call in a field of a header.

ghost use Rattle.std.specs.Prelude.{◌≡◌};
ghost use Rattle.agwpe_port.specs.CallField.{call_field};

use ax25_address::Call;

/// The field of a call: its text, and NULs up to ten octets.
pub fn call_text(call: &Call) -> [u8; 10]
    ensures { result ≡ call_field call.now }
{
    let text = call.text();
    let octets = text.as_str().as_bytes();
    let mut field = [0; 10];
    field[..octets.len()].copy_from_slice(octets);
    field
}
