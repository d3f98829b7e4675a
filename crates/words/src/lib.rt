// The shared vocabulary of the definitions (specs/), its laws, and an answer in words. Reading and writing words stand
// in `word_read` and `word_write`.
#![tactic(auto)]

pub mod outcome;
