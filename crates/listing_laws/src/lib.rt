//! Laws about listings: what they contain of what was sent, and that they read back.
//!
//! The listing of a conforming stream of at most 20,000,000 columns that was received whole and undamaged reads back as a
//! stream that the same columns spell. Of a raster received with sparse damage the content listing has exactly the rows, frames
//! and packets that arrived. A check counts no fault, and ends with `clean`, exactly if some conforming source could have sent
//! the columns before the cut. There is no code here: each function is a law.
#![tactic(auto)]

pub mod checks;
pub mod laws;
