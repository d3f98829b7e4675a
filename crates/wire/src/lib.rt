// What a rowset is: the kinds of its values, the sizes and limits that readers and writer share, and what can be wrong
// with one.
#![tactic(auto)]

pub mod error;
pub mod kind;
pub mod layout;
pub mod need;
