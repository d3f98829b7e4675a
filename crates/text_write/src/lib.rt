// A rowset's text written from lent tables over a byte area.
#![tactic(auto)]

mod spell;
pub mod write;
