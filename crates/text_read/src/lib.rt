// A rowset's text read into lent tables and a lent area, in two walks: `text_walk` checks and counts, and once there is
// room the second walk fills.
#![tactic(auto)]

mod fill;
pub mod read;
