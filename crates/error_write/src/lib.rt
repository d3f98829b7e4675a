// Errors written as a TError from two lent tables over a byte area: document 02's A10. Their size, and the writer.
#![tactic(auto)]

mod rows;
pub mod size;
pub mod write;
