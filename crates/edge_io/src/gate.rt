//! What the workers of a run pass on their way.

/// Something that the workers of a run pass before each of their steps. Nothing is known of it but that it lets them
/// go on: so a test can hold a worker up until another has come, and nothing that is proved depends on it.
pub trait Gate {
    /// The worker of this channel is about to make its step of this number, counted from 0.
    fn pass(&self, channel: u8, step: u32);

    /// This entry of a run is judged: its channel, and its place in the run, counted from 0.
    fn judged(&self, channel: u8, step: u32);
}

/// The gate that holds nobody up.
#[derive(Clone, Copy, Default, PartialEq, Eq)]
pub struct OpenGate;

impl Gate for OpenGate {
    fn pass(&self, _channel: u8, _step: u32) {}

    fn judged(&self, _channel: u8, _step: u32) {}
}
