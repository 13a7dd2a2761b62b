//! What a message of the host makes of a call.
ghost use Rattle.std.specs.Prelude.{◌≡◌, ◌==◌, ◌&&◌, [], ◌∷◌};
ghost use Rattle.std.specs.Str.{bytes_eq};
ghost use Rattle.agwpe_client.specs.CallSteps.{step_of, asking_step, calling_step, up_step, is_reply, is_of_call};

use crate::call_state::CallState;
use agwpe_port::AgwMessage;

/// What a message of the host makes of a call.
#[derive(Clone, Copy, Debug, PartialEq, Eq)]
pub(crate) enum Step {
    /// Nothing.
    Ignore,
    /// The call is registered: the remote station is called.
    Connect,
    /// The call stands: the text is sent.
    Talk,
    /// The remote station sent data: they are printed.
    Print,
    /// The connection ended.
    End,
    /// The host does not register the call, or does not reach the remote station.
    Refuse,
}

/// What a message makes of the call from `own` to `remote`, each as the field of a header.
pub(crate) fn step_of(
    own: &[u8; 10],
    remote: &[u8; 10],
    state: CallState,
    message: &AgwMessage,
) -> Step
    ensures { result ≡ step_of own.now remote.now state message.now }
{
    match state {
        CallState::Asking => asking_step(own, message),
        CallState::Calling => calling_step(own, remote, message),
        CallState::Up => up_step(own, remote, message),
        CallState::Done => Step::Ignore,
        CallState::Refused => Step::Ignore,
        CallState::Broken { .. } => Step::Ignore,
    }
}

fn asking_step(own: &[u8; 10], message: &AgwMessage) -> Step
    ensures { result ≡ asking_step own.now message.now }
{
    if message.kind != b'X' || message.from != *own {
        return Step::Ignore;
    }
    if message.body.as_slice() == [1].as_slice() {
        Step::Connect
    } else {
        Step::Refuse
    }
}

fn calling_step(own: &[u8; 10], remote: &[u8; 10], message: &AgwMessage) -> Step
    ensures { result ≡ calling_step own.now remote.now message.now }
{
    if !is_of_call(own, remote, message) {
        return Step::Ignore;
    }
    match message.kind {
        b'C' => Step::Talk,
        b'd' => Step::Refuse,
        _ => Step::Ignore,
    }
}

fn up_step(own: &[u8; 10], remote: &[u8; 10], message: &AgwMessage) -> Step
    ensures { result ≡ up_step own.now remote.now message.now }
{
    if !is_of_call(own, remote, message) {
        return Step::Ignore;
    }
    match message.kind {
        b'D' => Step::Print,
        b'd' => Step::End,
        _ => Step::Ignore,
    }
}

fn is_of_call(own: &[u8; 10], remote: &[u8; 10], message: &AgwMessage) -> bool
    ensures { result ≡ is_of_call own.now remote.now message.now }
{
    message.from == *remote && message.to == *own
}
