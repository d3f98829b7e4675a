// A rowset's text looked at byte by byte: whether it has the form and keeps the limits, and how many rows, values and
// blob bytes it has. Nothing is stored.
#![tactic(auto)]

mod check;
pub mod error;
pub mod walk;
