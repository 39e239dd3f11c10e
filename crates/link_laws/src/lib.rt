//! Laws about alignments and about what is reported of a link.
//!
//! They hold under the damage that the theorems allow. The first full alignment is the end of one control period. Received
//! columns are cut where the sent periods are. The events reported are the account of what was sent. This is half B of
//! docs/proof/THEOREM.md. No fault is reported of columns exactly if some conforming source could have sent those before the
//! cut. There is no code here: each function is a law, and its contract states it.
#![tactic(auto)]

pub mod deskew;
pub mod link;
