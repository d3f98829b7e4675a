// Varints read at an offset of a slice and written to the front of a lent part: document 02's A4 and A10.
#![tactic(auto)]

pub mod read;
pub mod write;
