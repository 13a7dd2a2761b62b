//! What a live station needs of the outside beside its streams.

/// The sockets, the line of the transmitter's key, what runs two jobs beside each other, and a seed. The parts are public,
/// since one of them runs while a job works with the others.
#[derive(Debug, Drop)]
pub struct Live<N, W, K> {
    /// The sockets of host programs.
    pub ports: N,
    /// What runs two jobs beside each other.
    pub spawner: W,
    /// The line to the daemon that keys the transmitter. If no key is asked for, no call is made of it.
    pub key: K,
    /// What the draws of channel access come from if the words of the program name no seed: another number at each
    /// start, such as the time.
    pub seed: u64,
}
