//! Tests of the sinks of three lanes (`link_sink`, `track_sink`, `relock_sink`), of `dvi_hearing` and of `relay`: lanes, columns and
//! events, and what is reported of them.
#![tactic(auto)]

#[cfg(test)]
mod dvi;
#[cfg(test)]
mod epochs;
#[cfg(test)]
mod lanes;
#[cfg(test)]
mod links;
#[cfg(test)]
mod listener;
#[cfg(test)]
mod relayed;
#[cfg(test)]
mod tell;
