//! The repeater: makes a conforming stream of what was reported of a link.
//!
//! Whatever is reported, the result is that of the definition (`relayed`), and it conforms. An event is refused as `Long`
//! exactly if it makes the columns pass 20,000,000, and because of memory only if it does not. After a refusal a `Relay` takes
//! nothing. Further events take no columns away. The laws in `laws` are over definitions and give what `relay_headline` and the
//! other theorems on `relay` promise.
#![tactic(auto)]

pub mod laws;
mod packets;
mod relaying;
mod settling;

pub use relaying::{Relay, RelayFault};
