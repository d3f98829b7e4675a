// A rowset written from lent tables over a byte area: the writing half of the Rust's `wire.rs`.
#![tactic(auto)]

pub mod write;
