// One value of a rowset, read at an offset: the lower half of the Rust's `wire.rs`.
#![tactic(auto)]

pub mod value;
