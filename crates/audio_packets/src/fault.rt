//! Why a packet is not read.
use thiserror::Error;

/// Why an audio packet is not read.
#[derive(Clone, Copy, Debug, Error)]
pub enum AudioFault {
    /// This block is lost, and none before it: blocks 0 to 3 are the bodies, block 4 is the header.
    #[error("block {0} is lost")]
    Lost(u8),
    /// The four bodies of a clock packet are not all alike.
    #[error("the four bodies are not all alike")]
    Uneven,
    /// A sample packet has layout 1, that of up to eight channels.
    #[error("the layout is that of up to eight channels")]
    Layout,
}
