// The lent tables of a rowset that is to be written: their checks, and how many bytes it takes.
#![tactic(auto)]

pub mod size;
pub mod table;
