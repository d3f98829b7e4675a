// What packing answers and what its functions state, what is asked of one entry, and sums that stop at 2^64-1.
#![tactic(auto)]

pub mod answer;
pub mod entry;
