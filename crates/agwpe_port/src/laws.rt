//! A law on streams of messages. A law is the contract of a function that does nothing.
ghost use Rattle.std.specs.Prelude.{◌≡◌, ◌≢◌, ℕ, nat_lt, if◌then◌else◌, List, [], length, take, slice_index, None};
ghost use Rattle.std.specs.Prelude.{Some};
ghost use Rattle.agwpe_port.specs.Messages.{messages_in, bad_length_in, header_size, told_length};

/// A stream whose octet 31 is not 0 has no message: its first header tells too long a body, and its 36th octet is
/// refused. So is every HTTP/1 request with a body, since no octet of its head is 0, and the head has over 36.
pub fn a_text_is_no_message()
    ensures messages { (stream : List ℕ) → slice_index stream 31 ≢ 0 → messages_in stream ≡ [] }
    ensures refused { (stream : List ℕ) → slice_index stream 31 ≢ 0 → bad_length_in stream
        ≡ (if nat_lt (length stream) header_size then None else Some (told_length (take header_size stream))) }
{}
