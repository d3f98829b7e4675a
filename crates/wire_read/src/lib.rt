// Rowsets read into lent tables, and the plain form: the reading half of the Rust's `wire.rs`.
#![tactic(auto)]

pub mod fill;
pub mod plain;
pub mod rowset;
pub mod walk;
